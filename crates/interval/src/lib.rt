// Document 01's intervals of a recording of k steps, and the triples of a chop: the limits, how many there are, their places.
#![tactic(auto)]

ghost use Rattle.std.specs.Prelude.{◌≡◌, ◌+◌, ◌≤◌, ◌<◌, length};
ghost use Rattle.interval.specs.Places.{count_of, place_of, triple_count_of, triple_place_of};
ghost use Rattle.interval.specs.Limits.{max_steps, max_count, ask_steps, ask_interval, made_of};
ghost use Rattle.interval.specs.Rows.{RowsOf, StartsOf};

use refusal::Refusal;

// [i, j]: it holds the instants i to j - 1.
#[derive(Clone, Copy)]
pub struct Interval {
    pub i: usize,
    pub j: usize,
}

impl Interval {
    // The most steps that a recording has.
    pub const MAX_STEPS: usize = 32;

    // The ends that an interval can have: 0 to the most steps.
    pub const MAX_ENDS: usize = Self::MAX_STEPS + 1;

    // Where the rows of intervals can begin, and where the last one ends.
    pub const MAX_ROWS: usize = Self::MAX_ENDS + 1;

    // The intervals of so many steps: 561.
    pub const MAX_COUNT: usize = (Self::MAX_STEPS + 1) * (Self::MAX_STEPS + 2) / 2;

    // Question 2.
    pub fn ask_steps(k: usize) -> Result<(), Refusal>
        ensures { result ≡ ask_steps k }
    {
        refusal::ask(2, k <= Self::MAX_STEPS)
    }

    // Question 9.
    pub fn ask_interval(i: usize, j: usize, k: usize) -> Result<(), Refusal>
        ensures { result ≡ ask_interval i j k }
    {
        refusal::ask_within(9, j, i, k)
    }

    // The constructor asks both.
    #[tactic(auto, unfolding(crate::specs::Limits::made_of))]
    pub fn new(i: usize, j: usize, k: usize) -> Result<Interval, Refusal>
        ensures { result ≡ made_of i j k }
    {
        Self::ask_steps(k)?;
        Self::ask_interval(i, j, k)?;
        Ok(Interval { i, j })
    }

    // How many intervals k steps have: I. The constant is I of the most steps, neither less nor more.
    pub fn count(k: usize) -> usize
        requires { k ≤ max_steps }
        ensures { (result ≡ count_of k) × (result ≤ Interval.MAX_COUNT) × (Interval.MAX_COUNT ≡ count_of max_steps) }
    {
        (k + 1) * (k + 2) / 2
    }

    // Where the row of each start begins, which has k + 1, k, .. intervals; after the last stands where it ends: I. Written in place, since
    // an array handed back is copied.
    pub fn put_rows(rows: &mut [u32], k: u32)
        requires { (k ≤ max_steps) × (k + 2 ≤ length rows.old) }
        ensures { RowsOf k rows.new }
    {
        rows[0] = 0;
        let mut start = 0;
        // Over starts and not over `rows`, which has one place more: a start is the sum of the rows before it, so that the sum comes first.
        for i in 0..k + 1 {
            start += k + 1 - i;
            rows[i as usize + 1] = start;
        }
    }

    // I, from the rows of k steps.
    pub fn all(rows: &[u32], k: u32) -> u32
        requires { (k ≤ max_steps) × RowsOf k rows.now }
        ensures { (result ≡ count_of k) × (result ≤ max_count) }
    {
        rows[k as usize + 1]
    }

    // The place of the interval of so many steps from i on, among those of k steps: after the rows before its own and the shorter ones.
    pub fn place(rows: &[u32], k: u32, i: u32, steps: u32) -> u32
        requires { (i + steps ≤ k) × (k ≤ max_steps) × RowsOf k rows.now }
        ensures { (result ≡ place_of k (record { i = i; j = i + steps })) × (result < max_count) }
    {
        rows[i as usize] + steps
    }
}

// [i, j], chopped at m.
#[derive(Clone, Copy)]
pub struct Triple {
    pub i: usize,
    pub m: usize,
    pub j: usize,
}

impl Triple {
    // The triples of the most steps: 6,545.
    pub const MAX_COUNT: usize = (Interval::MAX_STEPS + 1)
        * (Interval::MAX_STEPS + 2)
        * (Interval::MAX_STEPS + 3)
        / 6;

    // How many triples k steps have: J, with its constant likewise.
    pub fn count(k: usize) -> usize
        requires { k ≤ max_steps }
        ensures { (result ≡ triple_count_of k) × (result ≤ Triple.MAX_COUNT) × (Triple.MAX_COUNT ≡ triple_count_of max_steps) }
    {
        (k + 1) * (k + 2) * (k + 3) / 6
    }

    // Where the triples of each start begin: at a start are as many as intervals from it on.
    pub fn put_starts(starts: &mut [u32], rows: &[u32], k: u32)
        requires { (k ≤ max_steps) × (k + 1 ≤ length starts.old) × RowsOf k rows.now }
        ensures { StartsOf k starts.new }
    {
        let all = Interval::all(rows, k);
        starts[0] = 0;
        let mut start = 0;
        // Over starts and not over `starts`, whose last place has no start after it to be summed.
        for i in 0..k {
            start += all - Interval::place(rows, k, i, 0);
            starts[i as usize + 1] = start;
        }
    }

    // The place of the triple from i on, of so many steps and chopped after `cut` of them: after those of the starts before, and those of
    // the shorter intervals from i on, which are 1, 2, .. and so as many as intervals in the last rows.
    pub fn place(rows: &[u32], starts: &[u32], k: u32, i: u32, steps: u32, cut: u32) -> u32
        requires { (cut ≤ steps) × (i + steps ≤ k) × (k ≤ max_steps) × RowsOf k rows.now × StartsOf k starts.now }
        ensures { (result ≡ triple_place_of k (record { i = i; m = i + cut; j = i + steps })) × (result < triple_count_of k) }
    {
        let shorter = Interval::all(rows, k) - rows[(k + 1 - steps) as usize];
        starts[i as usize] + shorter + cut
    }
}
