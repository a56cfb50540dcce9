// The gates of a duration's or `[S]`'s block that mention its part at an instant, visited: those of the intervals that end a step later.
#![tactic(auto)]

ghost use Rattle.std.specs.Prelude.{◌≡◌, ◌≤◌, ◌<◌};
ghost use Rattle.interval.specs.Places.{count_of};
ghost use Rattle.interval.specs.Rows.{RowsOf};
ghost use Rattle.search_visits.specs.Visits.{Visits};
ghost use Rattle.search_fanout.specs.Fanout.{Rising};
ghost use Rattle.search_fanout.specs.Walks.{Standing, rise_clauses, instant_clauses};

use search_closing::Closed;
use search_fanout::Wiring;
use search_patterns::{Pattern, settle_both, settle_by, settle_step};
use table_blocks::Block;

// A duration's or `[S]`'s part at instant t: the interval from i that ends a step later, on n levels from a on.
fn visit_rise(
    values: &mut [u8],
    trail: &mut [u32],
    top: usize,
    wiring: &Wiring,
    block: Block,
    a: u32,
    n: u32,
    t: u32,
    i: u32,
) -> Closed
    requires { let w = wiring.now in Standing w.c w.k block values.old trail.old top × Rising block.rule a n × (i ≤ t) × (t < w.k)
        × (w.all ≡ count_of w.k) × RowsOf w.k w.rows.now }
    ensures { Visits (rise_clauses wiring.now.c wiring.now.k block a n t i) values trail top result }
{
    let first = block.first + wiring.place(i, t + 1 - i);
    if a == 0 {
        let last = block.left + t;
        if i == t {
            return settle_by(values, trail, top, Pattern::Copy, first, last, first, first);
        }
        return settle_both(values, trail, top, first, first - 1, last);
    }
    let mut v = first + wiring.all;
    let mut end = top;
    for e in 0..n {
        let p = v - 1;
        let q = p - wiring.all;
        let r = settle_step(values, trail, end, v, p, q, block.left + t);
        if r.clash {
            return r;
        }
        end = r.top;
        v += wiring.all;
    }
    Closed {
        clash: false,
        top: end,
    }
}

// And from every i up to t.
pub fn visit_instant(
    values: &mut [u8],
    trail: &mut [u32],
    top: usize,
    wiring: &Wiring,
    block: Block,
    a: u32,
    n: u32,
    t: u32,
) -> Closed
    requires { let w = wiring.now in Standing w.c w.k block values.old trail.old top × Rising block.rule a n × (t < w.k)
        × (w.all ≡ count_of w.k) × RowsOf w.k w.rows.now }
    ensures { Visits (instant_clauses wiring.now.c wiring.now.k block a n t) values trail top result }
{
    let mut end = top;
    for i in 0..t + 1 {
        let r = visit_rise(values, trail, end, wiring, block, a, n, t, i);
        if r.clash {
            return r;
        }
        end = r.top;
    }
    Closed {
        clash: false,
        top: end,
    }
}
