// The gates of a node's block that mention one of its own variables, by the node's rule.
#![tactic(auto)]

ghost use Rattle.std.specs.Prelude.{◌≡◌, false, ◌+◌};
ghost use Rattle.search_fanout.specs.Wiring.{Tabled};
ghost use Rattle.table_blocks.specs.Blocks.{is_chop, form_of};
ghost use Rattle.table_blocks.specs.declared.Form.TheVariants.{Line, Intervals};
ghost use Rattle.search_fanout.specs.Fanout.{Reaches, node_clauses, Node, InBlock};

use search_closing::Closed;
use search_fanout::Wiring;
use table_blocks::{Block, Form, Position};

// A duration's or `[S]`'s own variable in place x.
fn reach_level(
    values: &mut [u8],
    trail: &mut [u32],
    top: usize,
    wiring: &Wiring,
    block: Block,
    x: u32,
) -> Closed
    requires node { Node wiring.now.c wiring.now.k block values.old trail.old top × InBlock wiring.now.k block (block.first + x) × Tabled wiring.now }
    requires rule_value { (form_of block.rule ≡ Intervals) × (is_chop block.rule ≡ false) }
    ensures { Reaches (node_clauses wiring.now.c wiring.now.k block) (block.first + x) values trail top result }
{
    let rule = block.rule;
    let rise = search_lines::rise_of(rule);
    let level = search_decode::cell_at(x, wiring.all);
    let v = wiring.interval_at(level.cell);
    let i = v.i as u32;
    let p = Position {
        row: level.line,
        line: i,
        cell: v.j as u32 - i,
        before: 0,
    };
    let levels = rise.from + rise.count - 1;
    search_own_level::visit_after(values, trail, top, wiring, block, x, p, levels)
}

// A variable of the node's own.
pub fn reach(
    values: &mut [u8],
    trail: &mut [u32],
    top: usize,
    wiring: &Wiring,
    block: Block,
    u: u32,
) -> Closed
    requires { Node wiring.now.c wiring.now.k block values.old trail.old top × InBlock wiring.now.k block u × Tabled wiring.now }
    ensures { Reaches (node_clauses wiring.now.c wiring.now.k block) u values trail top result }
{
    let rule = block.rule;
    let x = u - block.first;
    if table_blocks::is_chop(rule) {
        return search_own_chop::reach_chop(values, trail, top, wiring, block, x);
    }
    match table_blocks::form_of(rule) {
        Form::Line => search_lines::visit_line(values, trail, top, wiring.c, wiring.k, block, x),
        Form::Intervals => reach_level(values, trail, top, wiring, block, x),
        Form::Triples => search_lines::done(top),
    }
}
