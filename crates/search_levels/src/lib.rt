// A gate of a duration's or `[S]`'s block, visited in its place: by the rule, the level and the length of the interval.
#![tactic(auto)]

ghost use Rattle.std.specs.Prelude.{◌≡◌};
ghost use Rattle.interval.specs.Places.{count_of};
ghost use Rattle.table_blocks.specs.Blocks.{defined_by, Placed};
ghost use Rattle.search_visits.specs.Visits.{Visits};
ghost use Rattle.search_clauses.specs.Clauses.{clauses_at};
ghost use Rattle.search_fanout.specs.Walks.{Standing};
ghost use Rattle.search_levels.specs.Rules.{is_throughout, Leveled};

use search_closing::Closed;
use search_fanout::Wiring;
use search_patterns::Pattern;
use table_blocks::{Block, Rule};

// Whether a rule is that of `[S]`.
fn is_throughout(rule: Rule) -> bool
    ensures { result ≡ is_throughout rule }
{
    matches!(rule, Rule::Throughout)
}

// A duration's or `[S]`'s gate in place x of its block: on level a, on the interval of d steps from i on.
pub fn visit_level(
    values: &mut [u8],
    trail: &mut [u32],
    top: usize,
    wiring: &Wiring,
    block: Block,
    x: u32,
    a: u32,
    i: u32,
    d: u32,
) -> Closed
    requires standing { let w = wiring.now in Standing w.c w.k block values.old trail.old top × Leveled block.rule × (w.all ≡ count_of w.k) }
    requires placed { Placed block.points wiring.now.k block.rule x a i d }
    ensures { Visits (clauses_at (defined_by wiring.now.c wiring.now.k block) x) values trail top result }
{
    let rule = block.rule;
    let first = block.first;
    let left = block.left;
    let v = first + x;
    if is_throughout(rule) {
        if d < 2 {
            if d == 0 {
                return search_patterns::settle_by(values, trail, top, Pattern::Low, v, v, v, v);
            }
            return search_patterns::settle_by(values, trail, top, Pattern::Copy, v, left + i, v, v);
        }
        let last = left + (i + (d - 1));
        return search_patterns::settle_both(values, trail, top, v, v - 1, last);
    }
    if a == 0 {
        return search_patterns::settle_by(values, trail, top, Pattern::High, v, v, v, v);
    }
    if d == 0 {
        return search_patterns::settle_by(values, trail, top, Pattern::Low, v, v, v, v);
    }
    let p = x - 1;
    let q = p - wiring.all;
    search_patterns::settle_step(
        values,
        trail,
        top,
        v,
        first + p,
        first + q,
        left + (i + (d - 1)),
    )
}
