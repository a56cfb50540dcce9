// A proposed assignment, from anyone: whether it meets every clause, and the recording read from its channel variables.
#![tactic(auto)]

ghost use Rattle.std.specs.Prelude.{◌≡◌, ℕ, ◌+◌, ◌≤◌, ◌<◌, length, get_or, Err};
ghost use Rattle.refusal.specs.Asked.{asked, ok};
ghost use Rattle.interval.specs.Limits.{max_steps};
ghost use Rattle.interval.specs.Rows.{RowsOf};
ghost use Rattle.paper_grammar.specs.Limits.{max_nodes, max_channels};
ghost use Rattle.paper_grammar.specs.Trees.{Tree};
ghost use Rattle.paper_grammar.specs.declared.Sort.TheVariants.{Formula};
ghost use Rattle.table_sizes.specs.Weights.{clause_weight, weight_to};
ghost use Rattle.paper_clauses.specs.Clauses.{clauses_by};
ghost use Rattle.node_calls.specs.Rows.{node_table_of, TableFor};
ghost use Rattle.table_layout.specs.Rows.{Low};
ghost use Rattle.paper_assignments.specs.Extension.{value_in};
ghost use Rattle.paper_assignments.specs.Calls.{ask_clauses, proposed};
ghost use Rattle.table_gates.specs.Mentioned.{Variable, AllMentioned};
ghost use Rattle.check_calls.specs.Rows.{defined_in, root_in, clauses_for, check_questions};

use interval::Interval;
use node_rows::NodeTable;
use paper_grammar::MAX_NODES;
use refusal::Refusal;

// Question 14 of the clauses of all nodes, in number order; `numbered` has the number of each node's first clause.
fn ask_nodes(
    assignment: &[u8],
    table: NodeTable,
    firsts: &[u32; MAX_NODES],
    numbered: &[u32; MAX_NODES],
    c: u32,
    rows: &[u32],
    k: u32,
) -> Result<(), Refusal>
    requires c_le_max_channels { (c ≤ max_channels) × (k ≤ max_steps) × (table.count ≤ max_nodes) × Low firsts.now × Low numbered.now × RowsOf k rows.now }
    requires by_index { (x : ℕ) → x < table.count → get_or numbered.now x 0 ≡ 0 + weight_to clause_weight k table.kinds table.numbers x }
    requires all_mentioned { AllMentioned (length assignment.now) (defined_in c k table firsts.now) }
    ensures { result ≡ ask_clauses (value_in assignment.now) 0 (clauses_by (defined_in c k table firsts.now)) }
{
    for x in 0..table.count {
        let block = table_layout::block_at(
            &table.kinds,
            &table.numbers,
            &table.sizes,
            firsts,
            k,
            x,
        );
        check_clauses::ask_node(assignment, c, rows, k, block, numbered[x])?;
    }
    Ok(())
}

// Question 14 of the whole table: the nodes' clauses, then the root alone.
fn ask_table(
    assignment: &[u8],
    table: NodeTable,
    firsts: &[u32; MAX_NODES],
    c: u32,
    k: u32,
) -> Result<(), Refusal>
    requires c_le_max_channels { (c ≤ max_channels) × (k ≤ max_steps) × (table.count ≤ max_nodes) × Low firsts.now }
    requires all_mentioned { AllMentioned (length assignment.now) (defined_in c k table firsts.now)
        × Variable (length assignment.now) (root_in table firsts.now k) }
    ensures { result ≡ ask_clauses (value_in assignment.now) 0 (clauses_for c k table firsts.now) }
{
    let mut numbered = [0; MAX_NODES];
    let last = table_sizes::sums(
        &table.kinds,
        &table.numbers,
        table.count,
        k,
        table_sizes::clauses(),
        0,
        &mut numbered,
    );
    let mut rows = [0; Interval::MAX_ROWS];
    Interval::put_rows(&mut rows, k);
    ask_nodes(assignment, table, firsts, &numbered, c, &rows, k)?;
    let root = table_layout::seat(&table.kinds, &table.numbers, firsts, k, 0) + k;
    if check_gate::high(assignment, root) {
        return Ok(());
    }
    Err(Refusal {
        number: 14,
        place: last,
    })
}

// Questions 12 to 14 and 18, of an accepted formula's node table, with as many places lent for the recording.
fn ask_proposal(
    table: NodeTable,
    c: u32,
    k: u32,
    assignment: &[u8],
    places: usize,
) -> Result<(), Refusal>
    requires { (c ≤ max_channels) × (k ≤ max_steps) × (table.count ≤ max_nodes) × ((f : Tree Formula) × TableFor c f table) }
    ensures { (f : Tree Formula) → table ≡ node_table_of f → result ≡ asked (check_questions c k f assignment.now places) Err ok }
{
    let layout = table_layout::layout_of(table, c, k);
    let s = layout.sizes;
    let whole = assignment.len() == s.variables as usize;
    let room = k as usize <= places;
    refusal::ask(12, whole)?;
    recording_questions::ask_below(13, 2, assignment)?;
    ask_table(assignment, table, &layout.firsts, c, k)?;
    refusal::ask(18, room)
}

// Whether a proposed assignment meets every clause of a formula of C channels over k steps; the recording is written where it does.
#[tactic(auto, using(crate::proofs::Call::refused_first))]
pub fn check(
    text: &[u8],
    c: u32,
    k: u32,
    assignment: &[u8],
    recording: &mut [u8],
) -> Result<(), Refusal>
    ensures { record { answer = result; recording = recording.new } ≡ proposed c k text.now assignment.now recording.old }
{
    let table = node_calls::node_table(text, c, k)?;
    ask_proposal(table, c, k, assignment, recording.len())?;
    let steps = k as usize;
    check_recording::put_recording(&mut recording[..steps], assignment, c as usize);
    Ok(())
}
