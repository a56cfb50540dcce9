// Question 14, whether an assignment meets clauses, asked clause after clause as the circuit gives them: of a block, a node.
#![tactic(auto)]

ghost use Rattle.std.specs.Prelude.{◌≡◌, ℕ, ◌+◌, ◌≤◌, ◌<◌, length};
ghost use Rattle.interval.specs.Limits.{max_count};
ghost use Rattle.interval.specs.Places.{count_of};
ghost use Rattle.interval.specs.Rows.{RowsOf};
ghost use Rattle.table_blocks.specs.Blocks.{is_chop, defined_by, bound, Bounded};
ghost use Rattle.table_sizes.specs.Weights.{max_weight, max_sum};
ghost use Rattle.paper_clauses.specs.Clauses.{clauses_by};
ghost use Rattle.table_nodes.specs.Nodes.{chopped_by, node_by, Fine};
ghost use Rattle.paper_assignments.specs.Extension.{value_in};
ghost use Rattle.paper_assignments.specs.Calls.{ask_clauses};
ghost use Rattle.table_gates.specs.Mentioned.{Variable, AllMentioned};
ghost use Rattle.check_clauses.specs.Walk.{constants};

use refusal::Refusal;
use table_blocks::{Block, Rule};
use table_nodes::cursor::Cursor;

// Question 14 of the clauses of n variables from w on that are all to be high or low (up), one clause each, numbered from m on.
fn ask_constants(assignment: &[u8], w: u32, n: u32, up: bool, m: u32) -> Result<(), Refusal>
    requires { (w < bound) × (n ≤ max_count) × (m < bound) × ((e : ℕ) → e < n → Variable (length assignment.now) (w + e)) }
    ensures { result ≡ ask_clauses (value_in assignment.now) m (clauses_by (constants w n up)) }
{
    for e in 0..n {
        if check_gate::high(assignment, w + e) != up {
            return Err(Refusal {
                number: 14,
                place: m + e,
            });
        }
    }
    Ok(())
}

// Question 14 of a block's clauses, gate after gate.
fn ask_block(
    assignment: &[u8],
    c: u32,
    rows: &[u32],
    k: u32,
    block: Block,
    n: u32,
) -> Result<(), Refusal>
    requires bounded { (Bounded c k block × (block.points ≤ max_count)) × (n ≤ max_sum + max_weight) × RowsOf k rows.now }
    requires all_mentioned { AllMentioned (length assignment.now) (defined_by c k block) }
    ensures { result ≡ ask_clauses (value_in assignment.now) n (clauses_by (defined_by c k block)) }
{
    let mut cursor = Cursor::start(rows, k, block);
    let mut m = n;
    while cursor.place < cursor.end {
        let gate = table_blocks::gate_at(
            c,
            rows,
            k,
            cursor.all,
            block,
            cursor.place,
            cursor.position,
        );
        check_gate::ask_gate(assignment, block.first + cursor.place, gate, m)?;
        m += check_gate::clause_count(gate);
        cursor = cursor.next(k, block);
    }
    Ok(())
}

// A chop: its triples, then its intervals.
fn ask_chop(
    assignment: &[u8],
    c: u32,
    rows: &[u32],
    k: u32,
    block: Block,
    n: u32,
) -> Result<(), Refusal>
    requires fine { Fine c k block × (n ≤ max_sum) × RowsOf k rows.now }
    requires all_mentioned { AllMentioned (length assignment.now) (chopped_by c k (block.first + count_of k) block) }
    ensures { result ≡ ask_clauses (value_in assignment.now) n (clauses_by (chopped_by c k (block.first + count_of k) block)) }
{
    let w = table_nodes::beyond(block.first, rows, k);
    let triples = table_nodes::triples_of(w, block);
    let intervals = table_nodes::intervals_of(w, block);
    ask_block(assignment, c, rows, k, triples, n)?;
    let before = table_sizes::weigh(table_sizes::clauses(), k, block.points, Rule::Cut);
    ask_block(assignment, c, rows, k, intervals, n + before)
}

// Question 14 of the clauses of a node's own definitions, numbered from n on. A constant needs no gates.
pub fn ask_node(
    assignment: &[u8],
    c: u32,
    rows: &[u32],
    k: u32,
    block: Block,
    n: u32,
) -> Result<(), Refusal>
    requires fine { Fine c k block × (n ≤ max_sum) × RowsOf k rows.now }
    requires all_mentioned { AllMentioned (length assignment.now) (node_by c k block (is_chop block.rule)) }
    ensures { result ≡ ask_clauses (value_in assignment.now) n (clauses_by (node_by c k block (is_chop block.rule))) }
{
    let rule = block.rule;
    if table_blocks::is_chop(rule) {
        return ask_chop(assignment, c, rows, k, block, n);
    }
    if let Rule::Fixed(up) = rule {
        return ask_constants(assignment, block.first, block.points, up, n);
    }
    ask_block(assignment, c, rows, k, block, n)
}
