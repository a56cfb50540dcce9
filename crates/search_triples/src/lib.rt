// The triples of a chop that mention a variable of one of its parts, visited.
#![tactic(auto)]

ghost use Rattle.std.specs.Prelude.{◌≡◌, ◌≤◌};
ghost use Rattle.interval.specs.Places.{count_of};
ghost use Rattle.interval.specs.Rows.{RowsOf, StartsOf};
ghost use Rattle.table_blocks.specs.declared.Rule.TheVariants.{Cut};
ghost use Rattle.search_visits.specs.Visits.{Visits};
ghost use Rattle.search_fanout.specs.Walks.{Standing, first_clauses, second_clauses};

use search_closing::Closed;
use search_fanout::Wiring;
use table_blocks::Block;

// A chop's first part on [i, m]: the triples (i, m, j) for all j. The next stands j - i + 1 places further, for so many has [i, j]; their
// second parts stand side by side.
pub fn visit_first(
    values: &mut [u8],
    trail: &mut [u32],
    top: usize,
    wiring: &Wiring,
    block: Block,
    i: u32,
    m: u32,
) -> Closed
    requires { let w = wiring.now in Standing w.c w.k block values.old trail.old top × (block.rule ≡ Cut) × (i ≤ m) × (m ≤ w.k)
        × RowsOf w.k w.rows.now × StartsOf w.k w.starts.now }
    ensures { Visits (first_clauses wiring.now.c wiring.now.k block i m) values trail top result }
{
    let x = block.left + wiring.place(i, m - i);
    let start = wiring.place(m, 0);
    let mut v = block.first + wiring.triple_place(i, m - i, m - i);
    let mut t = top;
    for e in 0..wiring.k - m + 1 {
        let y = block.right + start + e;
        let r = search_patterns::settle_both(values, trail, t, v, x, y);
        if r.clash {
            return r;
        }
        t = r.top;
        v += m - i + 1 + e;
    }
    Closed {
        clash: false,
        top: t,
    }
}

// A chop's second part on [m, j]: the triples (i, m, j) for all i. The next stands as many places further as triples start at i, which is
// `row`, less j - i + 1; its first part stands k - i further.
pub fn visit_second(
    values: &mut [u8],
    trail: &mut [u32],
    top: usize,
    wiring: &Wiring,
    block: Block,
    m: u32,
    j: u32,
) -> Closed
    requires { let w = wiring.now in Standing w.c w.k block values.old trail.old top × (block.rule ≡ Cut) × (m ≤ j) × (j ≤ w.k)
        × (w.all ≡ count_of w.k) × RowsOf w.k w.rows.now × StartsOf w.k w.starts.now }
    ensures { Visits (second_clauses wiring.now.c wiring.now.k block m j) values trail top result }
{
    let start = wiring.place(m, j - m);
    let mut x = block.left + m;
    let mut v = block.first + wiring.triple_place(0, j, m);
    let mut row = wiring.all;
    let mut t = top;
    for i in 0..m + 1 {
        let y = block.right + start;
        let r = search_patterns::settle_both(values, trail, t, v, x, y);
        if r.clash {
            return r;
        }
        t = r.top;
        v = v + row - (j - i + 1);
        x += wiring.k - i;
        row -= wiring.k - i + 1;
    }
    Closed {
        clash: false,
        top: t,
    }
}
