// Which rows of Q's table a chop can skip: those that are within one before them.
#![tactic(auto)]

ghost use Rattle.std.specs.Prelude.{◌≡◌, Bool, cond, ℕ, ◌≤◌, ◌<◌, eqb, length, get_or};
ghost use Rattle.std.specs.Int.Bits.{bit_and, bit_xor};
ghost use Rattle.interval.specs.Limits.{max_steps};
ghost use Rattle.interval.specs.Places.{count_of};
ghost use Rattle.interval.specs.Rows.{RowsOf};
ghost use Rattle.interval.specs.declared.Interval.{Interval};
ghost use Rattle.truth_table.specs.Table.{TableOf};
ghost use Rattle.truth_skips.specs.Rows.{NextRows, Within};

use interval::Interval;

// What a row has that another lacks: 0 for nothing.
fn beyond(row: &[u8], other: &[u8]) -> u8
    requires { length row.now ≡ length other.now }
    ensures { result ≡ 0 → (d : ℕ) → d < length row.now → bit_and (get_or row.now d 0) (bit_xor (get_or other.now d 0) 1) ≡ 0 }
{
    let mut more: u8 = 0;
    for (a, b) in row.iter().zip(other) {
        more |= *a & (*b ^ 1);
    }
    more
}

// The next row that is not within row m - 1: row m if it has more, otherwise the one next after it.
fn next_row(more: u8, m: usize, later: usize) -> usize
    ensures { result ≡ cond (eqb more 0) later m }
{
    if more == 0 { later } else { m }
}

// For each row of Q's table a later one, such that those between are within it: k + 1 where all that follow are.
pub fn next_rows(q: &[u8], rows: &[u32], k: usize) -> [usize; Interval::MAX_ENDS]
    requires { (k ≤ max_steps) × (count_of k ≤ length q.now) × RowsOf k rows.now }
    ensures { NextRows k result × ((g : Interval → Bool) → TableOf k g q.now → Within k g result) }
{
    let mut nexts = [k + 1; Interval::MAX_ENDS];
    let mut at = Interval::place(rows, k as u32, k as u32, 0) as usize;
    for l in (0..k).rev() {
        let before = at - (k - l);
        let end = at + (k - l);
        let more = beyond(&q[at..end], &q[before..at]);
        nexts[l] = next_row(more, l + 1, nexts[l + 1]);
        at = before - 1;
    }
    nexts
}
