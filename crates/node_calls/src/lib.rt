// The calls on an accepted formula's nodes: the node table, and a node's own text.
#![tactic(auto)]

ghost use Rattle.std.specs.Prelude.{◌≡◌, ◌+◌, ◌<◌, get_or};
ghost use Rattle.paper_grammar.specs.Limits.{max_nodes};
ghost use Rattle.node_calls.specs.Calls.{tabled_of, tabled_with, node_refusal_of, node_place_of, node_text_of};

use node_rows::NodeTable;
use paper_grammar::MAX_NODES;
use refusal::Refusal;

// Where a node's own text is: its first byte in the lent text and how many bytes, a byte each as in a row.
#[derive(Clone, Copy)]
pub struct Span {
    pub first: u8,
    pub length: u8,
}

// The node table of an accepted text: questions 1 to 7.
#[tactic(auto, using(crate::proofs::Called::table_refused, crate::proofs::Called::table_made))]
pub fn node_table(text: &[u8], c: u32, k: u32) -> Result<NodeTable, Refusal>
    ensures { result ≡ tabled_of c k text.now }
{
    formula_text::accept(text, c, k)?;
    Ok(node_rows::rows_of(text))
}

// The same, if it has a node x: questions 1 to 8.
#[tactic(auto, using(crate::proofs::Called::refused_early, crate::proofs::Called::refused_last, crate::proofs::Called::table_with))]
fn ask_node(text: &[u8], c: u32, k: u32, x: u32) -> Result<NodeTable, Refusal>
    ensures { result ≡ tabled_with c k x text.now }
{
    let table = node_table(text, c, k)?;
    refusal::ask_within(8, x as usize, 1, table.count)?;
    Ok(table)
}

// The number and place of the refusal of a node's text: questions 1 to 8.
#[tactic(auto, using(crate::proofs::Called::refused_with, crate::proofs::Called::allowed_with))]
pub fn node_refusal(text: &[u8], c: u32, k: u32, x: u32) -> Result<(), Refusal>
    ensures { result ≡ node_refusal_of c k x text.now }
{
    ask_node(text, c, k, x)?;
    Ok(())
}

// Where a node's own text is, as numbers: questions 1 to 8.
#[tactic(auto, using(crate::proofs::Laws::place_no, crate::proofs::Laws::row_within, crate::proofs::Laws::place_row))]
pub fn node_place(text: &[u8], c: u32, k: u32, x: u32) -> Result<Span, Refusal>
    ensures { result ≡ node_place_of c k x text.now }
{
    let table = ask_node(text, c, k, x)?;
    let i = x as usize - 1;
    let first = table.firsts[i];
    let length = table.lengths[i];
    Ok(Span { first, length })
}

// A node's own text as that part of the lent text, the empty part where refused.
#[tactic(auto, using(crate::proofs::Laws::part_within), unfolding(crate::specs::Calls::node_text_of))]
pub fn node_text(text: &[u8], c: u32, k: u32, x: u32) -> &[u8]
    ensures { result.now ≡ node_text_of c k x text.now }
{
    let Ok(span) = node_place(text, c, k, x) else {
        return &text[0..0];
    };
    let start = span.first as usize;
    let end = start + span.length as usize;
    &text[start..end]
}

// The row of the second part of the node at row x: after all those of the first, which is next.
pub fn second(sizes: &[u8; MAX_NODES], x: usize) -> usize
    requires { x < max_nodes }
    ensures { (result ≡ x + 1 + get_or sizes.now (x + 1) 0) × (x < result) }
{
    let first = x + 1;
    first + node_rows::byte_at(sizes, first) as usize
}
