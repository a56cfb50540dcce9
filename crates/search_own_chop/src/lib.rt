// The gates of a chop's block that mention one of its own variables: of an interval's its own gate alone, of a triple's its own and of its
// interval's two clauses.
#![tactic(auto)]

ghost use Rattle.std.specs.Prelude.{◌≡◌, ◌+◌, ◌<◌};
ghost use Rattle.search_fanout.specs.Wiring.{Tabled};
ghost use Rattle.interval.specs.Places.{count_of, triple_count_of};
ghost use Rattle.table_blocks.specs.declared.Rule.TheVariants.{Chop};
ghost use Rattle.search_fanout.specs.Fanout.{Reaches, node_clauses, Node};

use search_closing::Closed;
use search_fanout::Wiring;
use table_blocks::{Block, Position};

// A chop's own variable on the interval in place x.
fn reach_interval(
    values: &mut [u8],
    trail: &mut [u32],
    top: usize,
    wiring: &Wiring,
    block: Block,
    x: u32,
) -> Closed
    requires { Node wiring.now.c wiring.now.k block values.old trail.old top × (block.rule ≡ Chop) × (x < count_of wiring.now.k) × Tabled wiring.now }
    ensures { Reaches (node_clauses wiring.now.c wiring.now.k block) (block.first + x) values trail top result }
{
    let v = wiring.interval_at(x);
    let i = v.i as u32;
    let d = v.j as u32 - i;
    let p = Position {
        row: 0,
        line: i,
        cell: d,
        before: wiring.triple_place(i, d, 0),
    };
    let w = table_nodes::beyond(block.first, wiring.rows, wiring.k);
    let whole = table_nodes::intervals_of(w, block);
    search_walks::visit_at(values, trail, top, wiring, whole, x, p)
}

// A chop's variable of the triple in place x: its own gate, and of its interval's the two clauses that name it.
fn reach_triple(
    values: &mut [u8],
    trail: &mut [u32],
    top: usize,
    wiring: &Wiring,
    block: Block,
    x: u32,
) -> Closed
    requires { Node wiring.now.c wiring.now.k block values.old trail.old top × (block.rule ≡ Chop) × (x < triple_count_of wiring.now.k) × Tabled wiring.now }
    ensures { Reaches (node_clauses wiring.now.c wiring.now.k block) (block.first + count_of wiring.now.k + x) values trail top result }
{
    let t = wiring.triple_at(x);
    let i = t.i as u32;
    let d = t.j as u32 - i;
    let e = t.m as u32 - i;
    let w = table_nodes::beyond(block.first, wiring.rows, wiring.k);
    let triples = table_nodes::triples_of(w, block);
    let r = search_walks::visit_cut(values, trail, top, wiring, triples, x, i, d, e);
    if r.clash {
        return r;
    }
    let v = block.first + wiring.place(i, d);
    search_visits::visit_one(values, trail, r.top, v, w + x - e, e, d + 1)
}

// A chop's own variable in place x.
pub fn reach_chop(
    values: &mut [u8],
    trail: &mut [u32],
    top: usize,
    wiring: &Wiring,
    block: Block,
    x: u32,
) -> Closed
    requires { Node wiring.now.c wiring.now.k block values.old trail.old top × (block.rule ≡ Chop)
        × (x < count_of wiring.now.k + triple_count_of wiring.now.k) × Tabled wiring.now }
    ensures { Reaches (node_clauses wiring.now.c wiring.now.k block) (block.first + x) values trail top result }
{
    if x < wiring.all {
        return reach_interval(values, trail, top, wiring, block, x);
    }
    reach_triple(values, trail, top, wiring, block, x - wiring.all)
}
