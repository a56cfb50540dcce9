// One gate of a block, visited in its place: a chop's, a triple's, or that of a block of one line.
#![tactic(auto)]

ghost use Rattle.std.specs.Prelude.{◌≡◌, ◌^◌, ◌<◌};
ghost use Rattle.interval.specs.Places.{count_of};
ghost use Rattle.interval.specs.Rows.{RowsOf};
ghost use Rattle.table_blocks.specs.Blocks.{form_of, defined_by, Placed, Before, Bounded};
ghost use Rattle.table_blocks.specs.declared.Form.TheVariants.{Line};
ghost use Rattle.table_blocks.specs.declared.Rule.TheVariants.{Chop, Cut};
ghost use Rattle.search_visits.specs.Visits.{Visits};
ghost use Rattle.search_clauses.specs.Clauses.{clauses_at};
ghost use Rattle.search_fanout.specs.Walks.{Standing};
ghost use Rattle.search_walks.specs.Lines.{GoesBy};

use search_closing::Closed;
use search_fanout::Wiring;
use search_patterns::Pattern;
use table_blocks::{Block, Position, Rule};

// The gate in place x of a block, at position p.
pub fn visit_at(
    values: &mut [u8],
    trail: &mut [u32],
    top: usize,
    wiring: &Wiring,
    block: Block,
    x: u32,
    p: Position,
) -> Closed
    requires standing { let w = wiring.now in Standing w.c w.k block values.old trail.old top × (w.all ≡ count_of w.k) × RowsOf w.k w.rows.now }
    requires placed { Placed block.points wiring.now.k block.rule x p.row p.line p.cell × (block.rule ≡ Chop → Before block.points wiring.now.k Chop p) }
    ensures { Visits (clauses_at (defined_by wiring.now.c wiring.now.k block) x) values trail top result }
{
    let first = block.first;
    let gate = table_blocks::gate_at(wiring.c, wiring.rows, wiring.k, wiring.all, block, x, p);
    search_gate::visit(values, trail, top, first + x, gate)
}

// The gate of the triple in place x of a chop's triples, which starts at i, has d steps and is cut after e.
pub fn visit_cut(
    values: &mut [u8],
    trail: &mut [u32],
    top: usize,
    wiring: &Wiring,
    block: Block,
    x: u32,
    i: u32,
    d: u32,
    e: u32,
) -> Closed
    requires standing { let w = wiring.now in Standing w.c w.k block values.old trail.old top × (block.rule ≡ Cut) × RowsOf w.k w.rows.now }
    requires placed { Placed block.points wiring.now.k block.rule x i d e }
    ensures { Visits (clauses_at (defined_by wiring.now.c wiring.now.k block) x) values trail top result }
{
    let v = block.first + x;
    let first = block.left + wiring.place(i, e);
    let second = block.right + wiring.place(i + e, d - e);
    search_patterns::settle_both(values, trail, top, v, first, second)
}

// What the gate in a place of a block of one line goes by: its pattern, and its inputs; where it has fewer than two, its own variable.
#[derive(Clone, Copy)]
pub struct Inputs {
    pub gate: Pattern,
    pub x: u32,
    pub y: u32,
}

// The gate of v, in place x.
fn inputs_of(c: u32, k: u32, block: Block, x: u32, v: u32) -> Inputs
    requires { Bounded c k block × (x < 2 ^ 24) × (form_of block.rule ≡ Line) }
    ensures { GoesBy c k block x v result }
{
    let rule = block.rule;
    let left = block.left + x;
    let right = block.right + x;
    match rule {
        Rule::Fixed(up) => Inputs {
            gate: search_gate::constant(up),
            x: v,
            y: v,
        },
        Rule::Letter(channel) => Inputs {
            gate: Pattern::Copy,
            x: 1 + x * c + channel,
            y: v,
        },
        Rule::Negation => Inputs {
            gate: Pattern::Inverse,
            x: left,
            y: v,
        },
        Rule::And => Inputs {
            gate: Pattern::Both,
            x: left,
            y: right,
        },
        Rule::Or => Inputs {
            gate: Pattern::Either,
            x: left,
            y: right,
        },
        Rule::Chop | Rule::Duration(_) | Rule::Throughout | Rule::Cut => Inputs {
            gate: Pattern::Copy,
            x: v,
            y: v,
        },
    }
}

// The gate in place x of a block of one line.
pub fn visit_line(
    values: &mut [u8],
    trail: &mut [u32],
    top: usize,
    c: u32,
    k: u32,
    block: Block,
    x: u32,
) -> Closed
    requires standing { Standing c k block values.old trail.old top × (form_of block.rule ≡ Line) }
    requires placed { Placed block.points k block.rule x 0 0 x }
    ensures { Visits (clauses_at (defined_by c k block) x) values trail top result }
{
    let v = block.first + x;
    let i = inputs_of(c, k, block, x, v);
    search_patterns::settle_by(values, trail, top, i.gate, v, i.x, i.y, v)
}
