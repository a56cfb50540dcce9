// The gates of a chop's block that mention a variable of another node, where that is a part's truth: triples of an interval.
#![tactic(auto)]

ghost use Rattle.std.specs.Prelude.{◌≡◌, ◌*◌, ◌<◌};
ghost use Rattle.search_fanout.specs.Wiring.{Tabled};
ghost use Rattle.table_blocks.specs.declared.Rule.TheVariants.{Chop};
ghost use Rattle.search_fanout.specs.Fanout.{Reaches, node_clauses, Node, InBlock};
ghost use Rattle.search_part_chop.specs.Among.{Among};

use search_closing::Closed;
use search_fanout::Wiring;
use table_blocks::Block;

// Whether u is one of n variables from w on.
pub fn among(w: u32, n: u32, u: u32) -> bool
    ensures { Among w n u result }
{
    if u < w {
        return false;
    }
    u - w < n
}

// A variable of another node, in a chop: the triples of its first part's interval, or of its second part's.
pub fn reach_chop(
    values: &mut [u8],
    trail: &mut [u32],
    top: usize,
    wiring: &Wiring,
    block: Block,
    u: u32,
) -> Closed
    requires { Node wiring.now.c wiring.now.k block values.old trail.old top × (block.rule ≡ Chop)
        × (InBlock wiring.now.k block u → ⊥) × (wiring.now.k * wiring.now.c < u) × Tabled wiring.now }
    ensures { Reaches (node_clauses wiring.now.c wiring.now.k block) u values trail top result }
{
    let left = block.left;
    let right = block.right;
    let w = table_nodes::beyond(block.first, wiring.rows, wiring.k);
    let triples = table_nodes::triples_of(w, block);
    if among(left, wiring.all, u) {
        let v = wiring.interval_at(u - left);
        return search_triples::visit_first(
            values, trail, top, wiring, triples, v.i as u32, v.j as u32,
        );
    }
    if among(right, wiring.all, u) {
        let v = wiring.interval_at(u - right);
        return search_triples::visit_second(
            values, trail, top, wiring, triples, v.i as u32, v.j as u32,
        );
    }
    search_lines::done(top)
}
