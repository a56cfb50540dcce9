// The values of a chop's triples, from the truths of its parts: P on [i, m] and Q on [m, j].
#![tactic(auto)]

ghost use Rattle.std.specs.Prelude.{◌≡◌, suc, ◌+◌, ◌-◌, ◌≤◌, length};
ghost use Rattle.interval.specs.Limits.{max_steps};
ghost use Rattle.interval.specs.Places.{count_of, triple_count_of};
ghost use Rattle.interval.specs.Rows.{RowsOf};
ghost use Rattle.truth_table.specs.Table.{high_at, Binary};
ghost use Rattle.paper_assignments.specs.Extension.{cut_values};
ghost use Rattle.extend_triples.specs.Cuts.{on_places, cuts_from, triples_from};

use interval::Interval;

// The triples of one interval that starts at i, one for each cut; [m + 1, j] stands k - m places after [m, j].
fn put_cuts(
    out: &mut [u8],
    p: &[u8; Interval::MAX_COUNT],
    q: &[u8; Interval::MAX_COUNT],
    rows: &[u32],
    k: usize,
    i: usize,
)
    requires { (k ≤ max_steps) × (1 ≤ length out.old) × (i + length out.old ≤ suc k) × Binary p.now × Binary q.now × RowsOf k rows.now }
    ensures { out.new ≡ cuts_from k (high_at p.now) (high_at q.now) i (length out.old - 1) }
{
    let steps = out.len() - 1;
    let first = Interval::place(rows, k as u32, i as u32, 0) as usize;
    let mut at = Interval::place(rows, k as u32, i as u32, steps as u32) as usize;
    for (e, value) in out.iter_mut().enumerate() {
        *value = p[first + e] & q[at];
        if e < steps {
            at += k - (i + e);
        }
    }
}

// The triples that start at i, the shorter ones first.
fn put_starts(
    out: &mut [u8],
    p: &[u8; Interval::MAX_COUNT],
    q: &[u8; Interval::MAX_COUNT],
    rows: &[u32],
    k: usize,
    i: usize,
)
    requires { (k ≤ max_steps) × (i ≤ k) × (length out.old ≡ count_of (k - i)) × Binary p.now × Binary q.now × RowsOf k rows.now }
    ensures { out.new ≡ triples_from k (high_at p.now) (high_at q.now) i }
{
    let mut at = 0;
    // Over numbers of steps, which are no list's indices: each part is longer than the one before.
    for d in 0..k + 1 - i {
        let end = at + (d + 1);
        put_cuts(&mut out[at..end], p, q, rows, k, i);
        at = end;
    }
}

// All triples of a chop: at a start are as many as intervals from it on.
pub fn put_triples(
    out: &mut [u8],
    p: &[u8; Interval::MAX_COUNT],
    q: &[u8; Interval::MAX_COUNT],
    rows: &[u32],
    k: usize,
)
    requires { (k ≤ max_steps) × (length out.old ≡ triple_count_of k) × Binary p.now × Binary q.now × RowsOf k rows.now }
    ensures { out.new ≡ cut_values k (on_places k (high_at p.now)) (on_places k (high_at q.now)) }
{
    let all = Interval::all(rows, k as u32);
    let mut at = 0;
    // Over starts, which are no list's indices: each part is shorter than the one before.
    for i in 0..k + 1 {
        let end = at + (all - Interval::place(rows, k as u32, i as u32, 0)) as usize;
        put_starts(&mut out[at..end], p, q, rows, k, i);
        at = end;
    }
}
