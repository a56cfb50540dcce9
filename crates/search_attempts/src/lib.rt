// One try on values and a trail: the lowest open channel variable, its try low, and the try high once that is undone. A try is what solvers
// call a decision. The wiring is what the queue goes by: nothing here looks into it.
#![tactic(auto)]

ghost use Rattle.std.specs.Prelude.{◌≡◌, ℕ, ◌≤◌, length, get_or};
ghost use Rattle.paper_clauses.specs.Entries.{entry, literal_of};
ghost use Rattle.search_fanout.specs.Wiring.{OnGround, clauses_in, Tabled};
ghost use Rattle.search_attempts.specs.Attempts.{Openness, Ready, Undoable, TriesLiteral, TriesHigh};

// The crates above reach the queue through this one: rt goes every way that leads down, and there are fewer then.
use search_closing::Closed;
use search_fanout::Wiring;
pub use search_queue::start;

// No variable has a value.
pub fn clear(values: &mut [u8])
    ensures { (x : ℕ) → get_or values.new x 0 ≡ 0 }
{
    values.fill(search_closing::OPEN);
}

// The lowest open channel variable, or 0 where none is open.
pub fn lowest_open(values: &[u8], channels: u32) -> u32
    requires { (channels ≤ length values.now) × ((x : ℕ) → get_or values.now x 0 ≤ 2) }
    ensures { Openness values.now channels result }
{
    for (x, &value) in values[..channels as usize].iter().enumerate() {
        if value == search_closing::OPEN {
            return x as u32 + 1;
        }
    }
    0
}

// A decision: the closure with the literal of the open variable v added, low with a negated mark and high with a plain one.
pub fn try_literal(
    values: &mut [u8],
    trail: &mut [u32],
    top: usize,
    wiring: &Wiring,
    v: u32,
    mark: u8,
) -> Closed
    requires on_ground { OnGround wiring.now (length values.old) }
    requires tabled { Tabled wiring.now }
    requires ready { Ready (clauses_in wiring.now) values.old trail.old top v }
    ensures { TriesLiteral (clauses_in wiring.now) (literal_of (entry v mark)) values trail top result }
{
    let added = search_closing::add(values, trail, top, v, mark);
    search_queue::close(values, trail, top, added, wiring)
}

// Backtracking: the try low that began at a place of the trail undone, and its variable tried high.
pub fn try_high(
    values: &mut [u8],
    trail: &mut [u32],
    from: usize,
    to: usize,
    wiring: &Wiring,
) -> Closed
    requires on_ground { OnGround wiring.now (length values.old) }
    requires tabled { Tabled wiring.now }
    requires undoable { Undoable (clauses_in wiring.now) values.old trail.old from to }
    ensures { TriesHigh (clauses_in wiring.now) values trail from to result }
{
    search_closing::undo(values, trail, from, to);
    let v = trail[from];
    try_literal(values, trail, from, wiring, v, paper_clauses::PLAIN)
}
