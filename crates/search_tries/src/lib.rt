// The tree of tries on values and a trail, all tries one after another: it is DPLL's, its decisions in a fixed order, with chronological
// backtracking. The wiring is what the queue goes by: nothing here looks into it, but for the number of channel variables.
#![tactic(auto)]

ghost use Rattle.std.specs.Prelude.{◌*◌, length};
ghost use Rattle.paper_closure.specs.Closure.{nothing};
ghost use Rattle.search_fanout.specs.Wiring.{OnGround, clauses_in, Tabled};
ghost use Rattle.search_attempts.specs.Attempts.{Holding};
ghost use Rattle.search_tries.specs.Tries.{Started};

// The crates above reach these through this one: rt goes every way that leads down, and there are fewer then.
use interval::Interval;
use paper_grammar::MAX_CHANNELS;
pub use search_attempts::{clear, start};
use search_closing::Closed;
use search_fanout::Wiring;

// So many tries high can be left to make: each is of another channel variable.
const MAX_DEPTH: usize = Interval::MAX_STEPS * MAX_CHANNELS;

// What the tree comes to within a limit: all dead or found, with the number of tries, or more tries than the limit allows.
#[derive(Drop)]
pub enum Below {
    Dead(u32),
    Found(u32),
    Spent,
}

// The tree from the closure of nothing, within a limit: found where no channel variable is open, else the lowest open one is tried low;
// after a clash the last one that is still to be tried high is. No try is made that the limit does not allow. `levels` are the tops of
// the trail before each try low that is still to be tried high, `depth` of them.
pub fn descend(
    values: &mut [u8],
    trail: &mut [u32],
    closed: Closed,
    wiring: &Wiring,
    limit: u32,
) -> Below
    requires on_ground { OnGround wiring.now (length values.old) }
    requires tabled { Tabled wiring.now }
    requires holding { Holding (clauses_in wiring.now) nothing values.old trail.old closed }
    ensures { Started (clauses_in wiring.now) (length values.old) (wiring.now.k * wiring.now.c) limit values.new result }
{
    let channels = wiring.channels();
    let mut levels = [0; MAX_DEPTH];
    let mut last = closed;
    let mut depth = 0;
    let mut n = 0;
    loop {
        if last.clash {
            if depth == 0 {
                return Below::Dead(n);
            }
            if n == limit {
                return Below::Spent;
            }
            depth -= 1;
            last = search_attempts::try_high(values, trail, levels[depth], last.top, wiring);
            n += 1;
            continue;
        }
        let v = search_attempts::lowest_open(values, channels);
        if v == 0 {
            return Below::Found(n);
        }
        if n == limit {
            return Below::Spent;
        }
        levels[depth] = last.top;
        depth += 1;
        last = search_attempts::try_literal(
            values,
            trail,
            last.top,
            wiring,
            v,
            paper_clauses::NEGATED,
        );
        n += 1;
    }
}
