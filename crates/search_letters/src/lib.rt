// A channel's variable: the gates of its letters.
#![tactic(auto)]

ghost use Rattle.std.specs.Prelude.{◌≡◌, ◌*◌, ◌≤◌, ◌<◌, length};
ghost use Rattle.interval.specs.Places.{count_of};
ghost use Rattle.lists.specs.Listing.{rows};
ghost use Rattle.search_closing.specs.Values.{Trailing};
ghost use Rattle.search_visits.specs.Visits.{Visits};
ghost use Rattle.search_fanout.specs.Fanout.{speaks, Reaches};
ghost use Rattle.search_fanout.specs.Wiring.{OnGround, clauses_in, letter_in};

use search_closing::Closed;
use search_fanout::Wiring;
use table_blocks::Rule;

// Whether a rule is the letter of channel e.
fn speaks_of(rule: Rule, e: u32) -> bool
    ensures { result ≡ speaks e rule }
{
    matches!(rule, Rule::Letter(c) if c == e)
}

// The gate at instant t of the node at row x, if it is the letter of channel e: most nodes are not, so its block is made last.
fn reach_letter(
    values: &mut [u8],
    trail: &mut [u32],
    top: usize,
    wiring: &Wiring,
    x: usize,
    t: u32,
    e: u32,
) -> Closed
    requires on_ground { OnGround wiring.now (length values.old) × Trailing values.old trail.old top }
    requires x_lt_count { (x < wiring.now.table.count) × (t < wiring.now.k) × (wiring.now.all ≡ count_of wiring.now.k) }
    ensures { Visits (letter_in wiring.now t e x) values trail top result }
{
    let rule = table_blocks::rule_of(wiring.table.kinds[x], wiring.table.numbers[x]);
    if speaks_of(rule, e) {
        let block = wiring.block_of(x);
        return search_lines::visit_line(values, trail, top, wiring.c, wiring.k, block, t);
    }
    search_lines::done(top)
}

// The letters of channel e at instant t.
fn reach_letters(
    values: &mut [u8],
    trail: &mut [u32],
    top: usize,
    wiring: &Wiring,
    t: u32,
    e: u32,
) -> Closed
    requires on_ground { OnGround wiring.now (length values.old) × Trailing values.old trail.old top }
    requires t_lt_k { (t < wiring.now.k) × (wiring.now.all ≡ count_of wiring.now.k) }
    ensures { Visits (rows wiring.now.table.count (letter_in wiring.now t e)) values trail top result }
{
    let mut last = top;
    for x in 0..wiring.table.count {
        let r = reach_letter(values, trail, last, wiring, x, t, e);
        if r.clash {
            return r;
        }
        last = r.top;
    }
    search_lines::done(last)
}

// A channel's variable: its letters at its instant.
pub fn reach_channel(
    values: &mut [u8],
    trail: &mut [u32],
    top: usize,
    wiring: &Wiring,
    u: u32,
) -> Closed
    requires on_ground { OnGround wiring.now (length values.old) × Trailing values.old trail.old top }
    requires le_u { (1 ≤ u) × (u ≤ wiring.now.k * wiring.now.c) × (wiring.now.all ≡ count_of wiring.now.k) }
    ensures { Reaches (clauses_in wiring.now) u values trail top result }
{
    let at = search_decode::cell_at(u - 1, wiring.c);
    reach_letters(values, trail, top, wiring, at.line, at.cell)
}
