// The assignment that extends a recording: the channels, then a block for each node, the last node's first, since a node goes by its
// parts and these stand after it.
#![tactic(auto)]

ghost use Rattle.std.specs.Prelude.{◌≡◌, ℕ, ◌≤◌, length};
ghost use Rattle.interval.specs.Limits.{max_steps};
ghost use Rattle.interval.specs.Rows.{RowsOf};
ghost use Rattle.paper_grammar.specs.Limits.{max_nodes, max_channels};
ghost use Rattle.table_layout.specs.Rows.{Low};
ghost use Rattle.paper_assignments.specs.Calls.{extended};
ghost use Rattle.extend_calls.specs.Rows.{Seated, NodesPut, Extends};

use interval::Interval;
use node_rows::NodeTable;
use paper_grammar::MAX_NODES;
use refusal::Refusal;

// The blocks of all nodes, which end before `last`.
fn put_nodes(
    assignment: &mut [u8],
    table: NodeTable,
    firsts: &[u32; MAX_NODES],
    rows: &[u32],
    k: u32,
    last: usize,
    recording: &[u8],
)
    requires k_le_max_steps { (k ≤ max_steps) × (table.count ≤ max_nodes) × (last ≤ length assignment.old) × Low firsts.now × RowsOf k rows.now }
    requires by_index { (C : ℕ) × Seated C k table firsts.now last }
    ensures { NodesPut k recording.now table firsts.now last assignment.old assignment.new }
{
    let mut end = last;
    for x in (0..table.count).rev() {
        let block = table_layout::block_at(
            &table.kinds,
            &table.numbers,
            &table.sizes,
            firsts,
            k,
            x,
        );
        extend_nodes::put_node(assignment, block, end, rows, k as usize, recording);
        end = block.first as usize - 1;
    }
}

// The extension for an accepted formula, from its node table: question 18, then every value.
fn write_extension(
    table: NodeTable,
    c: u32,
    k: u32,
    recording: &[u8],
    assignment: &mut [u8],
) -> Result<(), Refusal>
    requires { (c ≤ max_channels) × (k ≤ max_steps) × (table.count ≤ max_nodes) × (length recording.now ≡ k) }
    ensures { Extends table c k recording.now assignment.old (record { answer = result; assignment = assignment.new }) }
{
    let layout = table_layout::layout_of(table, c, k);
    let s = layout.sizes;
    refusal::ask(18, s.variables as usize <= assignment.len())?;
    let channels = (k * c) as usize;
    extend_blocks::put_channels(&mut assignment[..channels], c as usize, recording);
    let mut rows = [0; Interval::MAX_ROWS];
    Interval::put_rows(&mut rows, k);
    put_nodes(
        assignment,
        table,
        &layout.firsts,
        &rows,
        k,
        s.variables as usize,
        recording,
    );
    Ok(())
}

// The assignment that extends a recording of k steps of C channels and meets all clauses of a formula but the last: V bytes.
#[tactic(auto, using(crate::proofs::Call::refused_first, crate::proofs::Call::refused_recording, crate::proofs::Call::refused_bytes))]
pub fn extend(
    text: &[u8],
    c: u32,
    k: u32,
    recording: &[u8],
    assignment: &mut [u8],
) -> Result<(), Refusal>
    ensures { record { answer = result; assignment = assignment.new } ≡ extended c k text.now recording.now assignment.old }
{
    let table = node_calls::node_table(text, c, k)?;
    recording_questions::ask_recording(k, recording)?;
    recording_questions::ask_bytes(c, recording)?;
    write_extension(table, c, k, recording, assignment)
}
