// The gates of a duration's or `[S]`'s block that mention one of its own variables, visited: in the places that document 01's definitions
// give.
#![tactic(auto)]

ghost use Rattle.std.specs.Prelude.{◌≡◌};
ghost use Rattle.interval.specs.Places.{count_of};
ghost use Rattle.table_blocks.specs.Blocks.{Placed};
ghost use Rattle.search_visits.specs.Visits.{Visits};
ghost use Rattle.search_fanout.specs.Fanout.{Levels};
ghost use Rattle.search_fanout.specs.Walks.{Standing, after_clauses};

use search_closing::Closed;
use search_fanout::Wiring;
use table_blocks::{Block, Position};

// A duration's or `[S]`'s own variable in place x, at position p: its gate, that of the interval a step longer, and that of the level above.
// Answers are handed on field by field: whole, the compiler copies them more slowly.
pub fn visit_after(
    values: &mut [u8],
    trail: &mut [u32],
    top: usize,
    wiring: &Wiring,
    block: Block,
    x: u32,
    p: Position,
    levels: u32,
) -> Closed
    requires standing { let w = wiring.now in Standing w.c w.k block values.old trail.old top × Levels block.rule levels × (w.all ≡ count_of w.k) }
    requires placed { Placed block.points wiring.now.k block.rule x p.row p.line p.cell }
    ensures { Visits (after_clauses wiring.now.c wiring.now.k block levels x p) values trail top result }
{
    let a = p.row;
    let i = p.line;
    let d = p.cell;
    let r = search_levels::visit_level(values, trail, top, wiring, block, x, a, i, d);
    if r.clash {
        return Closed {
            clash: r.clash,
            top: r.top,
        };
    }
    if i + d >= wiring.k {
        return Closed {
            clash: r.clash,
            top: r.top,
        };
    }
    let next = x + 1;
    let further = d + 1;
    let s = search_levels::visit_level(values, trail, r.top, wiring, block, next, a, i, further);
    if s.clash {
        return Closed {
            clash: s.clash,
            top: s.top,
        };
    }
    if a >= levels {
        return Closed {
            clash: s.clash,
            top: s.top,
        };
    }
    let above = next + wiring.all;
    let t = search_levels::visit_level(
        values,
        trail,
        s.top,
        wiring,
        block,
        above,
        a + 1,
        i,
        further,
    );
    Closed {
        clash: t.clash,
        top: t.top,
    }
}
