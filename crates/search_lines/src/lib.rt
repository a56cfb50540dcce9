// What a node's own variables and its parts' go by: the place of a line, the levels of a rise, nothing more.
#![tactic(auto)]

ghost use Rattle.std.specs.Prelude.{◌≡◌, false, ◌<◌};
ghost use Rattle.table_blocks.specs.Blocks.{form_of, defined_by};
ghost use Rattle.table_blocks.specs.declared.Form.TheVariants.{Line};
ghost use Rattle.search_visits.specs.Visits.{Visits};
ghost use Rattle.search_clauses.specs.Clauses.{clauses_at};
ghost use Rattle.search_fanout.specs.Fanout.{Node};
ghost use Rattle.search_lines.specs.Lines.{rise_of};

use search_closing::Closed;
use table_blocks::{Block, Rule};

// The levels that go by the instants of their part.
#[derive(Clone, Copy)]
pub struct Rise {
    pub from: u32,
    pub count: u32,
}

pub fn rise_of(rule: Rule) -> Rise
    ensures { result ≡ rise_of rule }
{
    match rule {
        Rule::Duration(n) => Rise { from: 1, count: n },
        _ => Rise { from: 0, count: 1 },
    }
}

// Nothing more.
pub fn done(top: usize) -> Closed
    ensures { result ≡ record { clash = false; top = top } }
{
    Closed {
        clash: false,
        top: top,
    }
}

// The gate in place x of a block of one line.
pub fn visit_line(
    values: &mut [u8],
    trail: &mut [u32],
    top: usize,
    c: u32,
    k: u32,
    block: Block,
    x: u32,
) -> Closed
    requires { Node c k block values.old trail.old top × (form_of block.rule ≡ Line) × (x < block.points) }
    ensures { Visits (clauses_at (defined_by c k block) x) values trail top result }
{
    search_walks::visit_line(values, trail, top, c, k, block, x)
}
