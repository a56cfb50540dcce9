// The blocks of a formula's variables as the code walks them: the gate at a position, the next position, and what gates weigh.
#![tactic(auto)]

ghost use Rattle.std.specs.Prelude.{◌≡◌, ◌+◌, ◌-◌, ◌^◌, ◌≤◌, ◌<◌};
ghost use Rattle.interval.specs.Places.{count_of};
ghost use Rattle.interval.specs.Rows.{RowsOf};
ghost use Rattle.interval.specs.Limits.{max_steps};
ghost use Rattle.paper_circuit.specs.Circuit.{channel_of};
ghost use Rattle.table_blocks.specs.declared.Rule.TheVariants.{Chop};
ghost use Rattle.table_blocks.specs.Blocks.{rule_by, is_chop, form_of, lines_of, cells_of, next_of, Placed, Before, Bounded, bound, level_by};
ghost use Rattle.table_blocks.specs.Blocks.{throughout_by, triple_by, gate_of};

use interval::Interval;
use paper_circuit::Gate;

// What the gates of a block go by. A chop has two blocks: its intervals, and its triples, which cut an interval in two.
#[derive(Clone, Copy)]
pub enum Rule {
    Fixed(bool),
    Letter(u32),
    Negation,
    And,
    Or,
    Chop,
    Duration(u32),
    Throughout,
    Cut,
}

// How the cells of a block stand: one line; lines of intervals by their starts; rows of triples by their starts, in lines by
// their lengths.
#[derive(Clone, Copy)]
pub enum Form {
    Line,
    Intervals,
    Triples,
}

// Variables from `first` on; its parts' truth from `left` and from `right` on. A block of one line has as many as its points.
#[derive(Clone, Copy)]
pub struct Block {
    pub rule: Rule,
    pub points: u32,
    pub first: u32,
    pub left: u32,
    pub right: u32,
}

// Where a gate stands in its block: a duration's level, i and j - i of an interval; i, j - i and m - i of a triple; a place of a line.
// The cells of its row before it count 1, 2, .. from each line's first on: as the intervals before an interval have triples.
#[derive(Clone, Copy)]
pub struct Position {
    pub row: u32,
    pub line: u32,
    pub cell: u32,
    pub before: u32,
}

// The rule of a node, by its kind and number in the node table.
pub fn rule_of(kind: u8, number: u8) -> Rule
    ensures { result ≡ rule_by kind number }
{
    match kind % node_rows::FORMULA {
        node_rows::FALSE => Rule::Fixed(false),
        node_rows::TRUE => Rule::Fixed(true),
        node_rows::NOT => Rule::Negation,
        node_rows::AND => Rule::And,
        node_rows::OR => Rule::Or,
        node_rows::CHOP => Rule::Chop,
        node_rows::LETTER => Rule::Letter(number as u32),
        node_rows::DURATION => Rule::Duration(number as u32),
        _ => Rule::Throughout,
    }
}

// A chop has two blocks, any other node one.
pub fn is_chop(rule: Rule) -> bool
    ensures { result ≡ is_chop rule }
{
    matches!(rule, Rule::Chop)
}

// How the cells of a block of this rule stand.
pub fn form_of(rule: Rule) -> Form
    ensures { result ≡ form_of rule }
{
    match rule {
        Rule::Chop | Rule::Duration(_) | Rule::Throughout => Form::Intervals,
        Rule::Cut => Form::Triples,
        _ => Form::Line,
    }
}

// How many lines a row has.
fn lines(form: Form, k: u32, row: u32) -> u32
    requires { k ≤ max_steps }
    ensures { result ≡ lines_of k row form }
{
    match form {
        Form::Line => 1,
        Form::Intervals => k + 1,
        Form::Triples => (k + 1).saturating_sub(row),
    }
}

// How many cells a line has.
fn cells(form: Form, points: u32, k: u32, line: u32) -> u32
    requires { (k ≤ max_steps) × (line < bound) }
    ensures { result ≡ cells_of points k line form }
{
    match form {
        Form::Line => points,
        Form::Intervals => (k + 1).saturating_sub(line),
        Form::Triples => line + 1,
    }
}

// The position after this one: the next cell, or the next line's first, or the next row's first.
pub fn next(rule: Rule, points: u32, k: u32, p: Position) -> Position
    requires { (k ≤ max_steps) × (p.row < bound) × (p.line < bound) × (p.cell < bound) × (p.before < bound) }
    ensures { result ≡ next_of points k rule p }
{
    let form = form_of(rule);
    let row = p.row;
    let line = p.line;
    let cell = p.cell + 1;
    let before = p.before + cell;
    if cell < cells(form, points, k, line) {
        return Position {
            row,
            line,
            cell,
            before,
        };
    }
    if line + 1 < lines(form, k, row) {
        return Position {
            row,
            line: line + 1,
            cell: 0,
            before,
        };
    }
    Position {
        row: row + 1,
        line: 0,
        cell: 0,
        before: 0,
    }
}

// Level a of a duration on the interval of d steps from i on, in place x of its block from b on, the state assertion from s on.
fn level_gate(k: u32, all: u32, b: u32, s: u32, x: u32, a: u32, i: u32, d: u32) -> Gate
    requires { (k ≤ max_steps) × (all ≡ count_of k) × (b < bound) × (s < bound) × (x < 2 ^ 24) × (i + d ≤ k) × ((1 ≤ a) → (1 ≤ d) → 1 + count_of k ≤ x) }
    ensures { result ≡ level_by k b s x a i d }
{
    if a == 0 {
        return Gate::Constant(true);
    }
    if d == 0 {
        return Gate::Constant(false);
    }
    let p = b + (x - 1);
    Gate::Step(p, p - all, s + (i + (d - 1)))
}

// `[S]` likewise, v being its variable.
fn throughout_gate(v: u32, s: u32, i: u32, d: u32) -> Gate
    requires { (s < bound) × (i + d ≤ max_steps) × (d ≤ v) }
    ensures { result ≡ throughout_by v s i d }
{
    if d == 0 {
        return Gate::Constant(false);
    }
    if d == 1 {
        return Gate::Copy(s + i);
    }
    Gate::Both(v - 1, s + (i + (d - 1)))
}

// The triple that starts at a, of i steps, chopped after d.
fn triple_gate(rows: &[u32], k: u32, l: u32, r: u32, a: u32, i: u32, d: u32) -> Gate
    requires k_le_max_steps { (k ≤ max_steps) × (l < bound) × (r < bound) × (d ≤ i) × (a + i ≤ k) }
    requires rows_of { RowsOf k rows.now }
    ensures { result ≡ triple_by k l r a i d }
{
    Gate::Both(
        l + Interval::place(rows, k, a, d),
        r + Interval::place(rows, k, a + d, i - d),
    )
}

// The variable of a channel at instant t.
fn channel_variable(c: u32, t: u32, channel: u32) -> u32
    requires { (c ≤ max_steps) × (t < 2 ^ 24) × (channel < 2 ^ 24) }
    ensures { result ≡ channel_of c t channel }
{
    1 + t * c + channel
}

// The gate in place x of a block, at position p; k steps have the rows of intervals lent, and I intervals in all.
pub fn gate_at(c: u32, rows: &[u32], k: u32, all: u32, block: Block, x: u32, p: Position) -> Gate
    requires bounded { Bounded c k block × (x < 2 ^ 24) × (all ≡ count_of k) × RowsOf k rows.now }
    requires placed { Placed block.points k block.rule x p.row p.line p.cell × (block.rule ≡ Chop → Before block.points k block.rule p) }
    ensures { result ≡ gate_of c k block x p.row p.line p.cell }
{
    let rule = block.rule;
    let first = block.first;
    let left = block.left;
    let right = block.right;
    match rule {
        Rule::Fixed(v) => Gate::Constant(v),
        Rule::Letter(channel) => Gate::Copy(channel_variable(c, x, channel)),
        Rule::Negation => Gate::Inverse(left + x),
        Rule::And => Gate::Both(left + x, right + x),
        Rule::Or => Gate::Either(left + x, right + x),
        Rule::Chop => Gate::AnyOf(left + p.before, p.cell + 1),
        Rule::Duration(_) => level_gate(k, all, first, left, x, p.row, p.line, p.cell),
        Rule::Throughout => throughout_gate(first + x, left, p.line, p.cell),
        Rule::Cut => triple_gate(rows, k, left, right, p.row, p.line, p.cell),
    }
}
