// The clauses of a node's blocks, written position after position to a table in memory.
#![tactic(auto)]

pub mod cursor;

ghost use Rattle.std.specs.Prelude.{◌≡◌, ◌+◌, ◌≤◌};
ghost use Rattle.interval.specs.Places.{count_of};
ghost use Rattle.interval.specs.Limits.{max_steps, max_count};
ghost use Rattle.interval.specs.Rows.{RowsOf};
ghost use Rattle.table_blocks.specs.Blocks.{defined_by, Bounded};
ghost use Rattle.table_sizes.specs.Weights.{max_sum};
ghost use Rattle.paper_clauses.specs.Clauses.{clauses_by};
ghost use Rattle.paper_clauses.specs.Entries.{flat};
ghost use Rattle.table_literals.specs.Written.{Room};
ghost use Rattle.table_literals.specs.Writes.{Writes};
ghost use Rattle.table_nodes.specs.Nodes.{triple_block, interval_block, chopped_by, node_places, Fine};

use cursor::Cursor;
use interval::Interval;
use table_blocks::{Block, Rule};

// The clauses of a block, gate after gate.
fn walk_block(
    variables: &mut [u32],
    marks: &mut [u8],
    at: usize,
    c: u32,
    rows: &[u32],
    k: u32,
    block: Block,
) -> usize
    requires room { Room variables.old marks.old at (flat (clauses_by (defined_by c k block))) }
    requires bounded { Bounded c k block × (block.points ≤ max_count) × RowsOf k rows.now }
    ensures { Writes variables marks at (flat (clauses_by (defined_by c k block))) result }
{
    let mut cursor = Cursor::start(rows, k, block);
    let mut b = at;
    while cursor.place < cursor.end {
        let gate = table_blocks::gate_at(
            c,
            rows,
            k,
            cursor.all,
            block,
            cursor.place,
            cursor.position,
        );
        b = table_gates::put_gate(variables, marks, b, block.first + cursor.place, gate);
        cursor = cursor.next(k, block);
    }
    b
}

// The clauses of a block. Those of a constant are one literal each, and need no gates.
fn put_block(
    variables: &mut [u32],
    marks: &mut [u8],
    at: usize,
    c: u32,
    rows: &[u32],
    k: u32,
    block: Block,
) -> usize
    requires room { Room variables.old marks.old at (flat (clauses_by (defined_by c k block))) }
    requires bounded { Bounded c k block × (block.points ≤ max_count) × RowsOf k rows.now }
    ensures { Writes variables marks at (flat (clauses_by (defined_by c k block))) result }
{
    let rule = block.rule;
    if let Rule::Fixed(up) = rule {
        return table_literals::put_run(
            variables,
            marks,
            at,
            block.first,
            block.points,
            table_literals::closing(up),
        );
    }
    walk_block(variables, marks, at, c, rows, k, block)
}

// Where a chop's triples begin: after its intervals.
pub fn beyond(first: u32, rows: &[u32], k: u32) -> u32
    requires { (first ≤ max_sum) × (k ≤ max_steps) × RowsOf k rows.now }
    ensures { result ≡ first + count_of k }
{
    first + Interval::all(rows, k)
}

// A chop's triples, from w on.
pub fn triples_of(w: u32, block: Block) -> Block
    ensures { result ≡ triple_block w block }
{
    Block {
        rule: Rule::Cut,
        points: block.points,
        first: w,
        left: block.left,
        right: block.right,
    }
}

// Its intervals, which go by them.
pub fn intervals_of(w: u32, block: Block) -> Block
    ensures { result ≡ interval_block w block }
{
    Block {
        rule: Rule::Chop,
        points: block.points,
        first: block.first,
        left: w,
        right: block.right,
    }
}

// A chop: its triples, then its intervals.
fn put_chop(
    variables: &mut [u32],
    marks: &mut [u8],
    at: usize,
    c: u32,
    rows: &[u32],
    k: u32,
    block: Block,
) -> usize
    requires room { Room variables.old marks.old at (flat (clauses_by (chopped_by c k (block.first + count_of k) block))) }
    requires fine { Fine c k block × RowsOf k rows.now }
    ensures { Writes variables marks at (flat (clauses_by (chopped_by c k (block.first + count_of k) block))) result }
{
    let w = beyond(block.first, rows, k);
    let triples = triples_of(w, block);
    let intervals = intervals_of(w, block);
    let b = put_block(variables, marks, at, c, rows, k, triples);
    put_block(variables, marks, b, c, rows, k, intervals)
}

// The clauses of a node's own definitions.
pub fn put_node(
    variables: &mut [u32],
    marks: &mut [u8],
    at: usize,
    c: u32,
    rows: &[u32],
    k: u32,
    block: Block,
) -> usize
    requires room { Room variables.old marks.old at (node_places c k block) }
    requires fine { Fine c k block × RowsOf k rows.now }
    ensures { Writes variables marks at (node_places c k block) result }
{
    let rule = block.rule;
    if table_blocks::is_chop(rule) {
        return put_chop(variables, marks, at, c, rows, k, block);
    }
    put_block(variables, marks, at, c, rows, k, block)
}
