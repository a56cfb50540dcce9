// The table of a chop, from those of its parts: rows of Q's table are added to rows of the chop's, and those that add nothing skipped.
#![tactic(auto)]

ghost use Rattle.std.specs.Prelude.{◌≡◌, Bool, ℕ, suc, ◌-◌, ◌≤◌, ◌<◌, length, get_or};
ghost use Rattle.std.specs.Int.Bits.{bit_or};
ghost use Rattle.interval.specs.Limits.{max_steps};
ghost use Rattle.interval.specs.Places.{count_of};
ghost use Rattle.interval.specs.Rows.{start_of, RowsOf};
ghost use Rattle.interval.specs.declared.Interval.{Interval};
ghost use Rattle.paper_meaning.specs.Meaning.{chops};
ghost use Rattle.truth_table.specs.Table.{TableOf, RowOf};
ghost use Rattle.truth_skips.specs.Rows.{NextRows, Within};
ghost use Rattle.truth_chop.specs.Rows.{AllZero};

use interval::Interval;

// Each byte of `from` onto that of `row`.
fn or_onto(row: &mut [u8], from: &[u8])
    requires { length row.old ≡ length from.now }
    ensures { (d : ℕ) → d < length row.old → get_or row.new d 0 ≡ bit_or (get_or row.old d 0) (get_or from.now d 0) }
{
    // Of what a `zip` over `iter_mut` writes, the library tells nothing.
    for (d, byte) in row.iter_mut().enumerate() {
        *byte |= from[d];
    }
}

// Row i of a chop, all 0 before: where P is true on [i, m], row m of Q tells for which j; the rows within it add nothing.
fn chop_row(
    row: &mut [u8],
    p: &[u8],
    q: &[u8],
    nexts: &[usize; Interval::MAX_ENDS],
    rows: &[u32],
    k: usize,
    i: usize,
    start: usize,
)
    requires k_le_max_steps { (k ≤ max_steps) × (i ≤ k) × (start ≡ start_of k i) × (length row.old ≡ suc k - i) × AllZero row.old }
    requires k_in_bounds { (count_of k ≤ length p.now) × (count_of k ≤ length q.now) × NextRows k nexts.now × RowsOf k rows.now }
    ensures { (f g : Interval → Bool) → TableOf k f p.now → TableOf k g q.now → Within k g nexts.now → RowOf i (chops f g) row.new }
{
    let mut d = 0;
    // No `for`: a turn goes on to the next row that has more, which no iterator knows.
    while d < row.len() {
        let m = i + d;
        if p[start + d] == 0 {
            d += 1;
            continue;
        }
        let at = Interval::place(rows, k as u32, m as u32, 0) as usize;
        let end = at + (k + 1 - m);
        or_onto(&mut row[d..], &q[at..end]);
        d = nexts[m] - i;
    }
}

// The table of a chop, from those of its parts.
pub fn chop_table(
    p: &[u8; Interval::MAX_COUNT],
    q: &[u8; Interval::MAX_COUNT],
    rows: &[u32],
    k: usize,
) -> [u8; Interval::MAX_COUNT]
    requires { (k ≤ max_steps) × RowsOf k rows.now }
    ensures { (f g : Interval → Bool) → TableOf k f p.now → TableOf k g q.now → TableOf k (chops f g) result }
{
    let nexts = truth_skips::next_rows(q, rows, k);
    let mut t = truth_table::all_of(0);
    let mut start = 0;
    // Over starts, which are no list's indices: each row is shorter than the one before.
    for i in 0..k + 1 {
        let end = start + (k + 1 - i);
        chop_row(&mut t[start..end], p, q, &nexts, rows, k, i, start);
        start = end;
    }
    t
}
