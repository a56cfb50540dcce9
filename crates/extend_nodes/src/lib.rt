// A node's block of the assignment that extends a recording: its values, from those of the node's parts, which stand after it.
#![tactic(auto)]

ghost use Rattle.std.specs.Prelude.{◌≡◌, ◌≤◌, length};
ghost use Rattle.interval.specs.Limits.{max_steps};
ghost use Rattle.interval.specs.Places.{count_of};
ghost use Rattle.interval.specs.Rows.{RowsOf};
ghost use Rattle.extend_nodes.specs.Parts.{part_points, BlockIn, BlockPut};

use interval::Interval;
use table_blocks::{Block, Rule};

// How much of each of its parts' truth a block of n values goes by; `count` is I. A node of one part makes nothing of a second.
fn part_points(rule: Rule, k: usize, n: usize, count: usize) -> usize
    requires { count ≡ count_of k }
    ensures { result ≡ part_points k n rule }
{
    match rule {
        Rule::Negation | Rule::And | Rule::Or => n,
        Rule::Chop => count,
        Rule::Duration(_) | Rule::Throughout => k,
        _ => 0,
    }
}

// A node's block, which ends before `end`: the middle part of the assignment, from the node's first variable, handed on to be written.
pub fn put_node(
    assignment: &mut [u8],
    block: Block,
    end: usize,
    rows: &[u32],
    k: usize,
    recording: &[u8],
)
    requires { (k ≤ max_steps) × BlockIn k block end (length assignment.old) × RowsOf k rows.now }
    ensures { BlockPut k recording.now block end assignment.old assignment.new }
{
    let rule = block.rule;
    let start = block.first as usize - 1;
    let n = end - start;
    let count = Interval::all(rows, k as u32) as usize;
    let points = part_points(rule, k, n, count);
    let p = extend_truths::truth_from(assignment, block.left, points);
    let q = extend_truths::truth_from(assignment, block.right, points);
    extend_blocks::put_values(
        &mut assignment[start..end],
        rule,
        rows,
        k,
        recording,
        &p,
        &q,
    );
}
