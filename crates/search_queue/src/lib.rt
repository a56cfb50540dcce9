// Closing by the trail as a queue: each variable of it in turn, and the gates that mention it. It is unit propagation, without a table of
// clauses.
#![tactic(auto)]

ghost use Rattle.std.specs.Prelude.{length};
ghost use Rattle.search_closing.specs.Values.{Trailing};
ghost use Rattle.search_closing.specs.Closing.{Closes};
ghost use Rattle.search_fanout.specs.Fanout.{Pending};
ghost use Rattle.search_fanout.specs.Wiring.{OnGround, clauses_in, Tabled};

use search_closing::Closed;
use search_fanout::Wiring;

// Unit propagation: the trail from head on, until all of it is taken or a clash is met. A clash is handed on field by field: where the
// answer is copied whole, the compiler keeps every answer below it whole, and that is slower.
pub fn close(
    values: &mut [u8],
    trail: &mut [u32],
    head: usize,
    top: usize,
    wiring: &Wiring,
) -> Closed
    requires on_ground { OnGround wiring.now (length values.old) }
    requires tabled { Tabled wiring.now }
    requires pending { Pending (clauses_in wiring.now) values.old trail.old head top }
    ensures { Closes (clauses_in wiring.now) values trail top result }
{
    let mut t = top;
    let mut h = head;
    while h < t {
        let u = trail[h];
        let r = search_reach::reach(values, trail, t, wiring, u);
        if r.clash {
            return Closed {
                clash: r.clash,
                top: r.top,
            };
        }
        t = r.top;
        h += 1;
    }
    Closed {
        clash: false,
        top: t,
    }
}

// From values that are all open: every gate visited once, and then the whole trail.
pub fn start(values: &mut [u8], trail: &mut [u32], wiring: &Wiring) -> Closed
    requires on_ground { OnGround wiring.now (length values.old) }
    requires tabled { Tabled wiring.now }
    requires trailing { Trailing values.old trail.old 0 }
    ensures { Closes (clauses_in wiring.now) values trail 0 result }
{
    let r = search_sweeps::sweep(values, trail, 0, wiring);
    if r.clash {
        return r;
    }
    close(values, trail, 0, r.top, wiring)
}
