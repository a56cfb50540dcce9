// Places decoded: an interval by its place from a table by value, a triple by where the triples of each start begin and by that table.
#![tactic(auto)]

ghost use Rattle.std.specs.Prelude.{◌≡◌, ◌+◌, ◌≤◌, ◌<◌, length, get_or};
ghost use Rattle.interval.specs.Limits.{max_steps, IntervalOf};
ghost use Rattle.interval.specs.Places.{count_of, triple_count_of, place_of};
ghost use Rattle.search_decode.specs.Decode.{InPlace, TripleIn, IntervalsTo, Tables, LastFrom, CellOf};

use interval::{Interval, Triple};

// Of numbers that grow the last that is not beyond u. By hand: `partition_point` promises nothing of a table that is not known to grow.
pub fn last_from(table: &[u32], count: usize, u: u32) -> usize
    requires { (0 < count) × (count ≤ length table.now) × (get_or table.now 0 0 ≤ u) }
    ensures { LastFrom table.now count u result }
{
    let mut low = 0;
    let mut high = count;
    while low + 1 < high {
        let middle = low + (high - low) / 2;
        if table[middle] <= u {
            low = middle;
        } else {
            high = middle;
        }
    }
    low
}

// Where a place is in lines of so many cells each: a duration's levels, or the channels at each instant.
#[derive(Clone, Copy)]
pub struct Cell {
    pub line: u32,
    pub cell: u32,
}

// A whole line less, until what is left is within one: there are few lines, and the search divides nothing (tests/divisions).
pub fn cell_at(x: u32, width: u32) -> Cell
    requires { 0 < width }
    ensures { CellOf width x result }
{
    let mut line = 0;
    let mut cell = x;
    while width <= cell {
        cell -= width;
        line += 1;
    }
    Cell { line, cell }
}

// The interval in the next place.
fn next(v: Interval, k: usize) -> Interval
    requires { IntervalOf k v × (k ≤ max_steps) }
    ensures { place_of k v + 1 < count_of k → InPlace k (place_of k v + 1) result }
{
    if v.j < k {
        return Interval { i: v.i, j: v.j + 1 };
    }
    Interval {
        i: v.i + 1,
        j: v.i + 1,
    }
}

// The intervals of k steps by their places, two bytes each.
fn put_intervals(table: &mut [u16], k: usize)
    requires { (k ≤ max_steps) × (count_of k ≤ length table.old) }
    ensures { IntervalsTo k table.new (count_of k) }
{
    let count = Interval::count(k);
    let mut v = Interval { i: 0, j: 0 };
    for t in &mut table[..count] {
        *t = (v.i * 128 + v.j) as u16;
        v = next(v, k);
    }
}

// What the queue goes by: the intervals by their places, where the triples of each start begin, and the rows of intervals.
pub fn put_tables(intervals: &mut [u16], starts: &mut [u32], rows: &mut [u32], k: u32)
    requires { (k ≤ max_steps) × (count_of k ≤ length intervals.old) × (k + 1 ≤ length starts.old) × (k + 2 ≤ length rows.old) }
    ensures { Tables k intervals.new starts.new rows.new }
{
    put_intervals(intervals, k as usize);
    Interval::put_rows(rows, k);
    Triple::put_starts(starts, rows, k);
}

// The interval in a place.
pub fn interval_at(intervals: &[u16], k: usize, p: usize) -> Interval
    requires { (p < count_of k) × (count_of k ≤ length intervals.now) × IntervalsTo k intervals.now (count_of k) }
    ensures { InPlace k p result }
{
    let t = usize::from(intervals[p]);
    Interval {
        i: t / 128,
        j: t % 128,
    }
}

// The triple in a place. Those of one start stand by length and cut as the intervals stand, from the last to the first, by what is
// left after start and end.
pub fn triple_at(intervals: &[u16], starts: &[u32], rows: &[u32], k: u32, x: u32) -> Triple
    requires { (k ≤ max_steps) × (x < triple_count_of k) × Tables k intervals.now starts.now rows.now }
    ensures { TripleIn k x result }
{
    let steps = k as usize;
    let i = last_from(starts, steps + 1, x);
    let after = x - starts[i];
    let v = interval_at(
        intervals,
        steps,
        (Interval::all(rows, k) - 1 - after) as usize,
    );
    Triple {
        i,
        m: i + (steps - v.j),
        j: i + (steps - v.i),
    }
}
