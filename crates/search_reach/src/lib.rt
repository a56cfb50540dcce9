// The gates that mention a variable visited, whichever it is: a channel's, or one of a node's own.
#![tactic(auto)]

ghost use Rattle.std.specs.Prelude.{◌*◌, ◌≤◌, ◌<◌, length};
ghost use Rattle.table_gates.specs.Mentioned.{Variable};
ghost use Rattle.search_closing.specs.Values.{Trailing};
ghost use Rattle.search_fanout.specs.Fanout.{Reaches};
ghost use Rattle.search_fanout.specs.Wiring.{OnGround, clauses_in, Tabled};

use paper_circuit::Gate;
use search_closing::Closed;
use search_fanout::Wiring;

// A node's variable: the gates of its own node, and of the node that it is a part of; the root's is a clause of its own.
fn reach_row(values: &mut [u8], trail: &mut [u32], top: usize, wiring: &Wiring, u: u32) -> Closed
    requires on_ground { OnGround wiring.now (length values.old) × Trailing values.old trail.old top }
    requires beyond { (wiring.now.k * wiring.now.c < u) × (u ≤ length values.old) }
    requires tabled { Tabled wiring.now }
    ensures { Reaches (clauses_in wiring.now) u values trail top result }
{
    let z = search_decode::last_from(&wiring.firsts, wiring.table.count, u);
    let block = wiring.block_of(z);
    let r = search_own::reach(values, trail, top, wiring, block, u);
    if r.clash {
        return r;
    }
    if z != 0 {
        let y = wiring.parents[z] as usize;
        let up = wiring.block_of(y);
        return search_parts::reach(values, trail, r.top, wiring, up, u);
    }
    let root = wiring.root();
    if u != root {
        return r;
    }
    search_gate::visit(values, trail, r.top, root, Gate::Constant(true))
}

// The gates that mention u.
pub fn reach(values: &mut [u8], trail: &mut [u32], top: usize, wiring: &Wiring, u: u32) -> Closed
    requires on_ground { OnGround wiring.now (length values.old) × Trailing values.old trail.old top }
    requires variable { Variable (length values.old) u }
    requires tabled { Tabled wiring.now }
    ensures { Reaches (clauses_in wiring.now) u values trail top result }
{
    if u <= wiring.channels() {
        return search_letters::reach_channel(values, trail, top, wiring, u);
    }
    reach_row(values, trail, top, wiring, u)
}
