// The clause table of a formula, written to lent arrays block by block.
#![tactic(auto)]

ghost use Rattle.std.specs.Prelude.{◌≡◌, ◌+◌, ◌≤◌, ◌<◌, length};
ghost use Rattle.moments.specs.Moments.{over};
ghost use Rattle.paper_grammar.specs.Limits.{max_nodes, max_channels};
ghost use Rattle.interval.specs.Limits.{max_steps};
ghost use Rattle.interval.specs.Rows.{RowsOf};
ghost use Rattle.paper_grammar.specs.Trees.{Tree};
ghost use Rattle.paper_grammar.specs.declared.Sort.TheVariants.{Formula};
ghost use Rattle.table_literals.specs.Written.{Room};
ghost use Rattle.table_literals.specs.Writes.{Writes};
ghost use Rattle.table_calls.specs.Table.{ask_room, five_of, tabled};
ghost use Rattle.table_calls.specs.Left.{left};
ghost use Rattle.node_calls.specs.Rows.{node_table_of};
ghost use Rattle.table_layout.specs.Rows.{Low, nodes_places, table_places};
ghost use Rattle.table_calls.specs.Rows.{tabled_by};

use interval::Interval;
use node_rows::NodeTable;
use paper_grammar::MAX_NODES;
use refusal::Refusal;
use table_layout::Sizes;

// The clauses of all nodes, in number order.
fn put_nodes(
    variables: &mut [u32],
    marks: &mut [u8],
    table: NodeTable,
    firsts: &[u32; MAX_NODES],
    c: u32,
    rows: &[u32],
    k: u32,
) -> usize
    requires room { Room variables.old marks.old 0 (nodes_places c k table firsts.now) }
    requires c_le_max_channels { (c ≤ max_channels) × (k ≤ max_steps) × (table.count ≤ max_nodes) × Low firsts.now × RowsOf k rows.now }
    ensures { Writes variables marks 0 (nodes_places c k table firsts.now) result }
{
    let mut at = 0;
    for x in 0..table.count {
        let block = table_layout::block_at(
            &table.kinds,
            &table.numbers,
            &table.sizes,
            firsts,
            k,
            x,
        );
        at = table_nodes::put_node(variables, marks, at, c, rows, k, block);
    }
    at
}

// The whole table: the nodes' clauses, then the root alone.
fn put_table(
    variables: &mut [u32],
    marks: &mut [u8],
    table: NodeTable,
    firsts: &[u32; MAX_NODES],
    c: u32,
    k: u32,
) -> usize
    requires room { Room variables.old marks.old 0 (table_places c k table firsts.now) }
    requires c_le_max_channels { (c ≤ max_channels) × (k ≤ max_steps) × (table.count ≤ max_nodes) × Low firsts.now }
    ensures { Writes variables marks 0 (table_places c k table firsts.now) result }
{
    let mut rows = [0; Interval::MAX_ROWS];
    Interval::put_rows(&mut rows, k);
    let at = put_nodes(variables, marks, table, firsts, c, &rows, k);
    let root = table_layout::seat(&table.kinds, &table.numbers, firsts, k, 0) + k;
    table_literals::put_run(variables, marks, at, root, 1, paper_clauses::LAST_PLAIN)
}

// Question 18, by the arrays' lengths.
pub fn ask_room(literals: u32, sizes: usize, variables: usize, marks: usize) -> Result<(), Refusal>
    ensures { result ≡ ask_room literals sizes variables marks }
{
    let l = literals as usize;
    refusal::ask(18, (5 <= sizes) & (l <= variables) & (l <= marks))
}

// The five sizes.
pub fn put_sizes(sizes: &mut [u32], s: Sizes)
    requires { 5 ≤ length sizes.old }
    ensures { sizes.new ≡ over (five_of s) sizes.old }
{
    table_literals::store(
        sizes,
        0,
        &[s.channels, s.steps, s.variables, s.clauses, s.literals],
    );
}

// The table of an accepted formula, from its node table: question 18, and then every place.
fn write_table(
    table: NodeTable,
    c: u32,
    k: u32,
    sizes: &mut [u32],
    variables: &mut [u32],
    marks: &mut [u8],
) -> Result<(), Refusal>
    requires { (c ≤ max_channels) × (k ≤ max_steps) × (table.count ≤ max_nodes) }
    ensures { (f : Tree Formula) → table ≡ node_table_of f → left result sizes variables marks ≡ tabled_by c k f sizes.old variables.old marks.old }
{
    let layout = table_layout::layout_of(table, c, k);
    let s = layout.sizes;
    ask_room(s.literals, sizes.len(), variables.len(), marks.len())?;
    put_sizes(sizes, s);
    put_table(variables, marks, table, &layout.firsts, c, k);
    Ok(())
}

// The clause table of a formula of C channels over k steps: C, k, V, M and L to `sizes`, the literals to the two arrays.
#[tactic(auto, using(crate::proofs::Call::refused_first))]
pub fn table(
    text: &[u8],
    c: u32,
    k: u32,
    sizes: &mut [u32],
    variables: &mut [u32],
    marks: &mut [u8],
) -> Result<(), Refusal>
    ensures { left result sizes variables marks ≡ tabled c k text.now sizes.old variables.old marks.old }
{
    let table = node_calls::node_table(text, c, k)?;
    write_table(table, c, k, sizes, variables, marks)
}
