// The whole tree of tries, from values that are cleared and closed.
#![tactic(auto)]

ghost use Rattle.std.specs.Prelude.{◌*◌, ◌^◌, ◌≤◌, ◌<◌, length};
ghost use Rattle.search_fanout.specs.Wiring.{OnGround, clauses_in, Tabled};
ghost use Rattle.search_tries.specs.Tries.{Started};

use search_fanout::Wiring;
pub use search_tries::Below;

// The whole tree, whatever values and trail held before.
pub fn start(values: &mut [u8], trail: &mut [u32], wiring: &Wiring, limit: u32) -> Below
    requires on_ground { OnGround wiring.now (length values.old) }
    requires tabled { Tabled wiring.now }
    requires values_in_bounds { (length values.old ≤ length trail.old) × (length values.old < 2 ^ 32) }
    ensures { Started (clauses_in wiring.now) (length values.old) (wiring.now.k * wiring.now.c) limit values.new result }
{
    search_tries::clear(values);
    let closed = search_tries::start(values, trail, wiring);
    search_tries::descend(values, trail, closed, wiring, limit)
}
