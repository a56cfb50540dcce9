// A walk through the gates of a block, in the order of their places: `table_blocks::gate_at` gives the gate here. It is called where the walk
// is made, since in a function of the cursor the compiler does not put it into the loop.
ghost use Rattle.std.specs.Prelude.{◌≡◌, ◌+◌, ◌<◌};
ghost use Rattle.interval.specs.Rows.{RowsOf};
ghost use Rattle.table_nodes.specs.Walk.{Walkable, Walks};

use interval::Interval;
use table_blocks::{Block, Position};

// Where a walk stands: at a place, past the last one at `end`, and at that place's position; k steps have I intervals in `all`.
#[derive(Drop)]
pub struct Cursor {
    pub place: u32,
    pub end: u32,
    pub all: u32,
    pub position: Position,
}

impl Cursor {
    // At the first gate.
    pub fn start(rows: &[u32], k: u32, block: Block) -> Cursor
        requires { Walkable k block × RowsOf k rows.now }
        ensures { Walks k block result × (result.place ≡ 0) }
    {
        let rule = block.rule;
        Cursor {
            place: 0,
            end: table_sizes::weigh(table_sizes::variables(), k, block.points, rule),
            all: Interval::all(rows, k),
            position: Position {
                row: 0,
                line: 0,
                cell: 0,
                before: 0,
            },
        }
    }

    // At the next gate.
    pub fn next(self, k: u32, block: Block) -> Cursor
        requires { Walkable k block × Walks k block self × (self.place < self.end) }
        ensures { Walks k block result × (result.place ≡ self.place + 1) }
    {
        let rule = block.rule;
        Cursor {
            place: self.place + 1,
            end: self.end,
            all: self.all,
            position: table_blocks::next(rule, block.points, k, self.position),
        }
    }
}
