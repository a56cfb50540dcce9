// Truths as bytes, 0 or 1: those of a node's part are taken from an assignment, those of the node are written to a part of it.
#![tactic(auto)]

ghost use Rattle.std.specs.Prelude.{◌≡◌, not, ℕ, ◌+◌, ◌-◌, ◌≤◌, ◌<◌, min, length, get_or};
ghost use Rattle.lists.specs.Listing.{tab};
ghost use Rattle.interval.specs.Limits.{max_count};
ghost use Rattle.paper_grammar.specs.Limits.{max_channels};
ghost use Rattle.paper_meaning.specs.Meaning.{bit, channel_at};
ghost use Rattle.truth_word.specs.Word.{joined};
ghost use Rattle.truth_table.specs.Table.{high_at, Binary};

use interval::Interval;

// The truths of n variables from `first` on, and then zeros; a variable past the assignment's end has none.
pub fn truth_from(assignment: &[u8], first: u32, n: usize) -> [u8; Interval::MAX_COUNT]
    requires { n ≤ max_count }
    ensures { Binary result × ((e : ℕ) → e < n → high_at result e ≡ high_at assignment.now (first - 1 + e)) }
{
    let mut t = truth_table::all_of(0);
    let at = (first as usize).saturating_sub(1);
    for (e, value) in assignment.iter().skip(at).take(n).enumerate() {
        t[e] = u8::from(*value == 1);
    }
    t
}

// The first bytes of a table.
pub fn put_table(out: &mut [u8], t: &[u8; Interval::MAX_COUNT])
    requires { length out.old ≤ max_count }
    ensures { out.new ≡ tab (length out.old) (λ e. get_or t.now e 0) }
{
    out.copy_from_slice(&t[..out.len()]);
}

// A letter: channel c at each instant.
pub fn put_channel(out: &mut [u8], recording: &[u8], c: usize)
    requires { c < max_channels }
    ensures { out.new ≡ tab (length out.old) (λ t. bit (channel_at recording.now c t)) }
{
    for (t, value) in out.iter_mut().enumerate() {
        *value = truth_word::bit_of(node_rows::byte_at(recording, t), c);
    }
}

// `!`, from the truths of its part.
pub fn put_inverse(out: &mut [u8], p: &[u8; Interval::MAX_COUNT])
    requires { (length out.old ≤ max_count) × Binary p.now }
    ensures { out.new ≡ tab (length out.old) (λ e. bit (not (high_at p.now e))) }
{
    for (e, value) in out.iter_mut().enumerate() {
        *value = p[e] ^ 1;
    }
}

// `&`, where `both`, or `|`, from the truths of its parts.
pub fn put_joined(
    out: &mut [u8],
    both: bool,
    p: &[u8; Interval::MAX_COUNT],
    q: &[u8; Interval::MAX_COUNT],
)
    requires { (length out.old ≤ max_count) × Binary p.now × Binary q.now }
    ensures { out.new ≡ tab (length out.old) (λ e. bit (joined both (high_at p.now e) (high_at q.now e))) }
{
    // Of what a `zip` over `iter_mut` writes, the library tells nothing.
    for (e, value) in out.iter_mut().enumerate() {
        *value = truth_word::joined(both, p[e], q[e]);
    }
}
