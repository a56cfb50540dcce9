// The values of a node's block, written to the part of an assignment that it fills, and the channels' values before all blocks.
#![tactic(auto)]

ghost use Rattle.std.specs.Prelude.{◌≡◌, Bool, ℕ, suc, ◌+◌, ◌*◌, ◌≤◌, length};
ghost use Rattle.lists.specs.Listing.{rows, tab};
ghost use Rattle.interval.specs.Limits.{max_steps};
ghost use Rattle.interval.specs.Places.{count_of, triple_count_of};
ghost use Rattle.interval.specs.Rows.{RowsOf};
ghost use Rattle.paper_grammar.specs.Limits.{max_channels};
ghost use Rattle.paper_grammar.specs.declared.Sort.TheVariants.{Formula};
ghost use Rattle.paper_meaning.specs.Meaning.{bit, bit_at, lasts};
ghost use Rattle.paper_meaning.specs.Words.{WordOf};
ghost use Rattle.paper_assignments.specs.Extension.{channel_values, truth_values};
ghost use Rattle.truth_table.specs.Table.{high_at, Binary};
ghost use Rattle.extend_blocks.specs.Values.{chop_values, values_by, Fits};

use interval::Interval;
use paper_grammar::MAX_CHANNELS;
use table_blocks::Rule;
use truth_table::Measure;

// An instant's channels.
fn put_instant(out: &mut [u8], byte: u8)
    requires { length out.old ≤ max_channels }
    ensures { out.new ≡ tab (length out.old) (λ c. bit (bit_at byte c)) }
{
    for (c, value) in out.iter_mut().enumerate() {
        *value = truth_word::bit_of(byte, c);
    }
}

// The channels at all instants.
pub fn put_channels(out: &mut [u8], c: usize, recording: &[u8])
    requires { (c ≤ max_channels) × (length recording.now ≤ max_steps) × (length out.old ≡ length recording.now * c) }
    ensures { out.new ≡ channel_values c (length recording.now) recording.now }
{
    let mut at = 0;
    for byte in recording {
        let end = at + c;
        put_instant(&mut out[at..end], *byte);
        at = end;
    }
}

// Levels 0 to n of a duration, from the word of its state assertion.
fn put_levels(out: &mut [u8], n: u32, word: u32, k: usize)
    requires { (k ≤ max_steps) × (n ≤ 255) × (length out.old ≡ suc n * count_of k) }
    ensures { (f : ℕ → Bool) → WordOf k f word → out.new ≡ rows (suc n) (λ c. truth_values Formula k (lasts c f)) }
{
    let count = Interval::count(k);
    let mut at = 0;
    // Over levels, which are no list's indices.
    for c in 0..n + 1 {
        let end = at + count;
        let level = c as u8;
        extend_truths::put_table(
            &mut out[at..end],
            &truth_table::measured_table(Measure::AtLeast(level), word, k),
        );
        at = end;
    }
}

// A chop: its intervals, then its triples.
fn put_chop(
    out: &mut [u8],
    p: &[u8; Interval::MAX_COUNT],
    q: &[u8; Interval::MAX_COUNT],
    rows: &[u32],
    k: usize,
)
    requires { (k ≤ max_steps) × (length out.old ≡ count_of k + triple_count_of k) × Binary p.now × Binary q.now × RowsOf k rows.now }
    ensures { out.new ≡ chop_values k (high_at p.now) (high_at q.now) }
{
    let count = Interval::all(rows, k as u32) as usize;
    extend_truths::put_table(&mut out[..count], &truth_chop::chop_table(p, q, rows, k));
    extend_triples::put_triples(&mut out[count..], p, q, rows, k);
}

// The values of a node's own block, which is lent whole, from the truths of its parts.
pub fn put_values(
    out: &mut [u8],
    rule: Rule,
    rows: &[u32],
    k: usize,
    recording: &[u8],
    p: &[u8; Interval::MAX_COUNT],
    q: &[u8; Interval::MAX_COUNT],
)
    requires { (k ≤ max_steps) × Fits k (length out.old) rule × Binary p.now × Binary q.now × RowsOf k rows.now }
    ensures { out.new ≡ values_by k recording.now (length out.old) (high_at p.now) (high_at q.now) rule }
{
    match rule {
        Rule::Fixed(up) => extend_truths::put_table(out, &truth_table::all_of(u8::from(up))),
        Rule::Letter(c) => extend_truths::put_channel(out, recording, c as usize % MAX_CHANNELS),
        Rule::Negation => extend_truths::put_inverse(out, p),
        Rule::And => extend_truths::put_joined(out, true, p, q),
        Rule::Or => extend_truths::put_joined(out, false, p, q),
        Rule::Chop => put_chop(out, p, q, rows, k),
        Rule::Duration(n) => put_levels(out, n, truth_word::word_of(p, 0, k), k),
        Rule::Throughout => {
            extend_truths::put_table(
                out,
                &truth_table::measured_table(Measure::Throughout, truth_word::word_of(p, 0, k), k),
            )
        }
        Rule::Cut => extend_truths::put_table(out, &truth_table::all_of(0)),
    }
}
