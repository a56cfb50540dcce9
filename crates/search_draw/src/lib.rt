// The tree of tries, and the recording drawn.
#![tactic(auto)]

ghost use Rattle.std.specs.Prelude.{◌≡◌, ◌*◌, ◌^◌, ◌≤◌, ◌<◌, length, Ok};
ghost use Rattle.paper_closure.specs.Tree.{tree};
ghost use Rattle.search_fanout.specs.Wiring.{OnGround, clauses_in, Tabled};
ghost use Rattle.paper_search.specs.Search.{limited};
ghost use Rattle.paper_search.specs.Left.{left};

use paper_search::Answer;
use search_fanout::Wiring;
use search_tree::Below;

// The tree of tries of a node table, with values and trail for its variables and a byte for each instant.
pub fn draw(
    values: &mut [u8],
    trail: &mut [u32],
    recording: &mut [u8],
    wiring: &Wiring,
    limit: u32,
) -> Answer
    requires on_ground { OnGround wiring.now (length values.old) }
    requires tabled { Tabled wiring.now }
    requires values_in_bounds { (length values.old ≤ length trail.old) × (length values.old < 2 ^ 32) × (length recording.old ≡ wiring.now.k) }
    ensures { let w = wiring.now in
        left (Ok result) recording ≡ limited w.c w.k limit recording.old (tree (clauses_in w) (length values.old) (w.k * w.c)) }
{
    match search_tree::start(values, trail, wiring, limit) {
        Below::Dead(n) => Answer::None(n),
        Below::Found(n) => {
            check_recording::put_recording(recording, values, wiring.c as usize);
            Answer::Found(n)
        }
        Below::Spent => Answer::Spent(limit),
    }
}
