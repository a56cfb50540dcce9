// The gates of a node's block that mention a variable of another node, by the node's rule: where that is a part's truth.
#![tactic(auto)]

ghost use Rattle.std.specs.Prelude.{◌≡◌, false, ◌*◌, ◌<◌};
ghost use Rattle.search_fanout.specs.Wiring.{Tabled};
ghost use Rattle.table_blocks.specs.Blocks.{is_chop, form_of};
ghost use Rattle.table_blocks.specs.declared.Form.TheVariants.{Line, Intervals};
ghost use Rattle.search_fanout.specs.Fanout.{Reaches, node_clauses, Node, InBlock};
ghost use Rattle.search_parts.specs.Part.{parts_of};

use search_closing::Closed;
use search_fanout::Wiring;
use table_blocks::{Block, Form, Rule};

// How many parts are judged as the node itself is, place by place.
fn parts_of(rule: Rule) -> u32
    ensures { result ≡ parts_of rule }
{
    match rule {
        Rule::Negation => 1,
        Rule::And | Rule::Or => 2,
        _ => 0,
    }
}

// A variable of another node, in a node that is judged place by place.
fn reach_line(
    values: &mut [u8],
    trail: &mut [u32],
    top: usize,
    c: u32,
    k: u32,
    block: Block,
    u: u32,
) -> Closed
    requires { Node c k block values.old trail.old top × (form_of block.rule ≡ Line) × (InBlock k block u → ⊥) × (k * c < u) }
    ensures { Reaches (node_clauses c k block) u values trail top result }
{
    let rule = block.rule;
    let left = block.left;
    let right = block.right;
    let points = block.points;
    let parts = parts_of(rule);
    if (1 <= parts) & search_part_chop::among(left, points, u) {
        return search_lines::visit_line(values, trail, top, c, k, block, u - left);
    }
    if (2 <= parts) & search_part_chop::among(right, points, u) {
        return search_lines::visit_line(values, trail, top, c, k, block, u - right);
    }
    search_lines::done(top)
}

// In a duration or `[S]`.
fn reach_instant(
    values: &mut [u8],
    trail: &mut [u32],
    top: usize,
    wiring: &Wiring,
    block: Block,
    u: u32,
) -> Closed
    requires node { Node wiring.now.c wiring.now.k block values.old trail.old top
        × (InBlock wiring.now.k block u → ⊥) × (wiring.now.k * wiring.now.c < u) × Tabled wiring.now }
    requires rule_value { (form_of block.rule ≡ Intervals) × (is_chop block.rule ≡ false) }
    ensures { Reaches (node_clauses wiring.now.c wiring.now.k block) u values trail top result }
{
    let left = block.left;
    if !search_part_chop::among(left, wiring.k, u) {
        return search_lines::done(top);
    }
    let rule = block.rule;
    let rise = search_lines::rise_of(rule);
    let t = u - left;
    search_instants::visit_instant(values, trail, top, wiring, block, rise.from, rise.count, t)
}

// A variable of another node: where it is a part's truth, the gates that mention it.
pub fn reach(
    values: &mut [u8],
    trail: &mut [u32],
    top: usize,
    wiring: &Wiring,
    block: Block,
    u: u32,
) -> Closed
    requires { Node wiring.now.c wiring.now.k block values.old trail.old top
        × (InBlock wiring.now.k block u → ⊥) × (wiring.now.k * wiring.now.c < u) × Tabled wiring.now }
    ensures { Reaches (node_clauses wiring.now.c wiring.now.k block) u values trail top result }
{
    let rule = block.rule;
    if table_blocks::is_chop(rule) {
        return search_part_chop::reach_chop(values, trail, top, wiring, block, u);
    }
    match table_blocks::form_of(rule) {
        Form::Line => reach_line(values, trail, top, wiring.c, wiring.k, block, u),
        Form::Intervals => reach_instant(values, trail, top, wiring, block, u),
        Form::Triples => search_lines::done(top),
    }
}
