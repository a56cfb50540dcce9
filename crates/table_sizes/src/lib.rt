// What gates weigh: how many variables, clauses and literals the blocks of a formula have.
#![tactic(auto)]

ghost use Rattle.std.specs.Prelude.{◌≡◌, ◌≤◌, ◌*◌, ◌^◌, length};
ghost use Rattle.interval.specs.Limits.{max_steps, max_count};
ghost use Rattle.interval.specs.Places.{count_of};
ghost use Rattle.paper_grammar.specs.Limits.{max_nodes};
ghost use Rattle.table_sizes.specs.Weights.{variable_weight, clause_weight, literal_weight, longer_by, weight_by, max_weight, Light, Small, points_by};
ghost use Rattle.table_sizes.specs.Weights.{row_weight, Summed};

use interval::{Interval, Triple};
use paper_grammar::MAX_NODES;
use table_blocks::Rule;

// What gates count: of a copy or an inverse, for each input of the others, and of a step.
#[derive(Clone, Copy)]
pub struct Weight {
    pub copy: u32,
    pub each: u32,
    pub step: u32,
}

// Each gate weighs 1: how many variables are defined.
pub fn variables() -> Weight
    ensures { result ≡ variable_weight }
{
    Weight {
        copy: 1,
        each: 0,
        step: 1,
    }
}

// How many clauses a gate has.
pub fn clauses() -> Weight
    ensures { result ≡ clause_weight }
{
    Weight {
        copy: 2,
        each: 1,
        step: 4,
    }
}

// How many literals.
pub fn literals() -> Weight
    ensures { result ≡ literal_weight }
{
    Weight {
        copy: 4,
        each: 3,
        step: 11,
    }
}

// The weight of the gates on all intervals: 1 on empty ones, `one` on those of one step, `more` on the others.
fn longer(k: u32, one: u32, more: u32) -> u32
    requires { (k ≤ max_steps) × (one ≤ 11) × (more ≤ 11) }
    ensures { (result ≡ longer_by k one more) × (result ≤ max_count * 12) }
{
    let empty = k + 1;
    empty + k * one + (Interval::count(k as usize) as u32 - empty - k) * more
}

// The weight of a block's gates.
pub fn weigh(w: Weight, k: u32, points: u32, rule: Rule) -> u32
    requires { Light w k points rule }
    ensures { (result ≡ weight_by w k points rule) × (result ≤ max_weight) }
{
    let both = 2 * w.each + 1;
    match rule {
        Rule::Fixed(_) => points,
        Rule::Letter(_) => points * w.copy,
        Rule::Negation => points * w.copy,
        Rule::And => points * both,
        Rule::Or => points * both,
        Rule::Chop => Interval::count(k as usize) as u32
            + Triple::count(k as usize) as u32 * w.each,
        Rule::Duration(n) => Interval::count(k as usize) as u32 + n * longer(k, w.step, w.step),
        Rule::Throughout => longer(k, w.copy, both),
        Rule::Cut => Triple::count(k as usize) as u32 * both,
    }
}

// How many instants or intervals a node of this kind is judged on; k steps have I intervals in all.
pub fn points_of(kind: u8, k: u32, all: u32) -> u32
    requires { (k ≤ max_steps) × (all ≡ count_of k) }
    ensures { (result ≡ points_by k kind) × (result ≤ max_count) }
{
    if kind < node_rows::FORMULA { k } else { all }
}

// The weight of a node's gates, by its kind and number in the node table.
fn row_weight(kind: u8, number: u8, k: u32, w: Weight) -> u32
    requires { Small w k }
    ensures { (result ≡ row_weight w k kind number) × (result ≤ 2 * max_weight) }
{
    let points = points_of(kind, k, Interval::count(k as usize) as u32);
    let rule = table_blocks::rule_of(kind, number);
    let own = weigh(w, k, points, rule);
    if table_blocks::is_chop(rule) {
        own + weigh(w, k, points, Rule::Cut)
    } else {
        own
    }
}

// Where what each node weighs begins, the nodes following each other from `start` on, and where the last one's ends.
pub fn sums<'a>(
    kinds: &'a [u8; MAX_NODES],
    numbers: &'a [u8; MAX_NODES],
    count: usize,
    k: u32,
    w: Weight,
    start: u32,
    out: &mut [u32; MAX_NODES],
) -> u32
    requires small { Small w k }
    requires count_le_max_nodes { (count ≤ max_nodes) × (start ≤ 2 ^ 20) × (length out.old ≡ max_nodes) }
    ensures { Summed w k kinds.now numbers.now start count out.old out.new result }
{
    let mut total = start;
    for (x, place) in out[..count].iter_mut().enumerate() {
        *place = total;
        total += row_weight(kinds[x], numbers[x], k, w);
    }
    total
}
