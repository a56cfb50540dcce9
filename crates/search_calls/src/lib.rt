// The search: the first recording that satisfies a formula, with the number of tries it took.
#![tactic(auto)]

ghost use Rattle.std.specs.Prelude.{◌≡◌, ◌≤◌};
ghost use Rattle.interval.specs.Limits.{max_steps};
ghost use Rattle.paper_grammar.specs.Limits.{max_nodes, max_channels};
ghost use Rattle.paper_grammar.specs.Trees.{Tree};
ghost use Rattle.paper_grammar.specs.declared.Sort.TheVariants.{Formula};
ghost use Rattle.node_calls.specs.Rows.{node_table_of, TableFor};
ghost use Rattle.paper_search.specs.Search.{ask_lent, searched, Unchanged};
ghost use Rattle.paper_search.specs.Left.{left, lent};
ghost use Rattle.search_calls.specs.Rows.{lent_by, searched_by};

use node_rows::NodeTable;
use paper_search::{Answer, Lent};
use refusal::Refusal;

// Question 18, by the arrays' lengths.
fn ask_lent(literals: u32, variables: u32, k: u32, lent: Lent) -> Result<(), Refusal>
    ensures { result ≡ ask_lent literals variables k lent }
{
    let l = literals as usize;
    let v = variables as usize;
    let table = (l <= lent.variables) & (l <= lent.marks);
    let work = table & (v <= lent.values) & (v <= lent.trail);
    refusal::ask(18, work & (k as usize <= lent.recording))
}

// The search of an accepted formula, from its node table: question 18, `variables` and `marks` being how many are lent, and then the rest.
fn search_table(
    table: NodeTable,
    c: u32,
    k: u32,
    limit: u32,
    variables: usize,
    marks: usize,
    values: &mut [u8],
    trail: &mut [u32],
    recording: &mut [u8],
) -> Result<Answer, Refusal>
    requires { (c ≤ max_channels) × (k ≤ max_steps) × (table.count ≤ max_nodes) × ((f : Tree Formula) × TableFor c f table) }
    ensures recording_value { (f : Tree Formula) → table ≡ node_table_of f
        → left result recording
        ≡ searched_by c k f limit (lent_by variables marks values.old trail.old recording.old) recording.old }
    ensures unchanged { Unchanged result values.old values.new × Unchanged result trail.old trail.new }
{
    let layout = table_layout::layout_of(table, c, k);
    let s = layout.sizes;
    let lent = Lent {
        variables,
        marks,
        values: values.len(),
        trail: trail.len(),
        recording: recording.len(),
    };
    ask_lent(s.literals, s.variables, k, lent)?;
    Ok(search_lent::search_lent(table, layout, c, k, limit, values, trail, recording))
}

// The first recording that satisfies a formula of C channels over k steps, within a limit of tries: found, none or spent.
#[tactic(auto, using(crate::proofs::Call::first_refused))]
pub fn search(
    text: &[u8],
    c: u32,
    k: u32,
    limit: u32,
    variables: &mut [u32],
    marks: &mut [u8],
    values: &mut [u8],
    trail: &mut [u32],
    recording: &mut [u8],
) -> Result<Answer, Refusal>
    ensures recording_value { left result recording ≡ searched c k text.now limit (lent variables marks values trail recording) recording.old }
    ensures unchanged { Unchanged result variables.old variables.new × Unchanged result marks.old marks.new }
    ensures unchanged_2 { Unchanged result values.old values.new × Unchanged result trail.old trail.new }
{
    let table = node_calls::node_table(text, c, k)?;
    search_table(
        table,
        c,
        k,
        limit,
        variables.len(),
        marks.len(),
        values,
        trail,
        recording,
    )
}
