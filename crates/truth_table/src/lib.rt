// The truth of a formula on every interval of k steps: an array by value, a row for each start, filled from its parts.
#![tactic(auto)]

ghost use Rattle.std.specs.Prelude.{◌≡◌, Bool, not, ℕ, suc, ◌+◌, ◌≤◌, length, replicate};
ghost use Rattle.interval.specs.Limits.{max_steps, max_count};
ghost use Rattle.interval.specs.Places.{count_of};
ghost use Rattle.interval.specs.Rows.{RowsOf};
ghost use Rattle.interval.specs.declared.Interval.{Interval};
ghost use Rattle.paper_meaning.specs.Meaning.{bit, bit_at};
ghost use Rattle.truth_word.specs.Word.{Lows, joined};
ghost use Rattle.truth_table.specs.Table.{TableOf, RowOf, least_on, measured};

use interval::Interval;

// What is asked of a state assertion S on an interval: `#S>=n`, that it is true at n of its instants or more; `[S]`, at every one,
// of at least one.
#[derive(Clone, Copy)]
pub enum Measure {
    AtLeast(u8),
    Throughout,
}

// The same byte at every place.
pub fn all_of(b: u8) -> [u8; Interval::MAX_COUNT]
    ensures { result ≡ replicate max_count b }
{
    [b; Interval::MAX_COUNT]
}

// The table of `T`, where `up`, or of `F`.
pub fn constant_table(up: bool) -> [u8; Interval::MAX_COUNT]
    ensures { (k : ℕ) → k ≤ max_steps → TableOf k (λ v. up) result }
{
    all_of(u8::from(up))
}

// How many instants of [i, j] must be high.
fn least_on(measure: Measure, i: usize, j: usize) -> u32
    requires { (i ≤ j) × (j ≤ max_steps) }
    ensures { result ≡ least_on measure (record { i = i; j = j }) }
{
    match measure {
        Measure::AtLeast(n) => u32::from(n),
        Measure::Throughout => (j - i).max(1) as u32,
    }
}

// A duration or `[S]` on [i, j], from the word of S.
fn measured_on(
    measure: Measure,
    lows: &[u32; Interval::MAX_ENDS],
    word: u32,
    i: usize,
    j: usize,
) -> u8
    requires { (i ≤ j) × (j ≤ max_steps) × Lows lows.now }
    ensures { result ≡ bit (measured measure (bit_at word) (record { i = i; j = j })) }
{
    u8::from(truth_word::count_high(lows, word, i, j) >= least_on(measure, i, j))
}

// Row i of a duration or of `[S]`.
fn measured_row(
    row: &mut [u8],
    measure: Measure,
    lows: &[u32; Interval::MAX_ENDS],
    word: u32,
    i: usize,
)
    requires { (i + length row.old ≤ suc max_steps) × Lows lows.now }
    ensures { RowOf i (measured measure (bit_at word)) row.new }
{
    for (d, truth) in row.iter_mut().enumerate() {
        *truth = measured_on(measure, lows, word, i, i + d);
    }
}

// The table of a duration or of `[S]`, from the word of S.
pub fn measured_table(measure: Measure, word: u32, k: usize) -> [u8; Interval::MAX_COUNT]
    requires { k ≤ max_steps }
    ensures { TableOf k (measured measure (bit_at word)) result }
{
    let lows = truth_word::lows();
    let mut t = all_of(0);
    let mut start = 0;
    // Over starts, which are no list's indices: each row is shorter than the one before.
    for i in 0..k + 1 {
        let end = start + (k + 1 - i);
        measured_row(&mut t[start..end], measure, &lows, word, i);
        start = end;
    }
    t
}

// The table of `!`, in the place of its part's.
pub fn inverse(p: &mut [u8], rows: &[u32], k: usize)
    requires { (k ≤ max_steps) × (count_of k ≤ length p.old) × RowsOf k rows.now }
    ensures { (f : Interval → Bool) → TableOf k f p.old → TableOf k (λ v. not (f v)) p.new }
{
    let n = Interval::all(rows, k as u32) as usize;
    for truth in p[..n].iter_mut() {
        *truth ^= 1;
    }
}

// The table of `&`, where `both`, or of `|`, from those of its parts, in the place of the first.
pub fn join(both: bool, p: &mut [u8], q: &[u8], rows: &[u32], k: usize)
    requires { (k ≤ max_steps) × (count_of k ≤ length p.old) × (count_of k ≤ length q.now) × RowsOf k rows.now }
    ensures { (f g : Interval → Bool) → TableOf k f p.old → TableOf k g q.now → TableOf k (λ v. joined both (f v) (g v)) p.new }
{
    let n = Interval::all(rows, k as u32) as usize;
    // Of what a `zip` over `iter_mut` writes, the library tells nothing.
    for (x, truth) in p[..n].iter_mut().enumerate() {
        *truth = truth_word::joined(both, *truth, q[x]);
    }
}
