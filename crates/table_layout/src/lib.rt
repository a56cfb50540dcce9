// How a formula's clause table is laid out, by its node table: its sizes, each node's first variable, and each node's block.
#![tactic(auto)]

ghost use Rattle.std.specs.Prelude.{◌≡◌, ℕ, ◌+◌, ◌≤◌, ◌<◌, length, get_or};
ghost use Rattle.interval.specs.Limits.{max_steps};
ghost use Rattle.paper_grammar.specs.Limits.{max_nodes, max_channels};
ghost use Rattle.table_blocks.specs.Blocks.{bound};
ghost use Rattle.table_nodes.specs.Nodes.{Fine};
ghost use Rattle.table_layout.specs.Rows.{Low, Seated, seat_by, block_by, Measured};

use interval::Interval;
use node_rows::NodeTable;
use paper_grammar::MAX_NODES;
use table_blocks::Block;

// C, k, V, M and L.
#[derive(Clone, Copy)]
pub struct Sizes {
    pub channels: u32,
    pub steps: u32,
    pub variables: u32,
    pub clauses: u32,
    pub literals: u32,
}

// A formula's sizes, and the first variable of each node.
#[derive(Clone, Copy)]
pub struct Layout {
    pub sizes: Sizes,
    pub firsts: [u32; MAX_NODES],
}

// The number at a place, and 0 past the end.
pub fn number_at(numbers: &[u32], at: usize) -> u32
    ensures { result ≡ get_or numbers.now at 0 }
{
    numbers.get(at).copied().unwrap_or(0)
}

// The first variable of the truth of the node at row y: of a duration, the last level's.
pub fn seat<'a>(
    kinds: &'a [u8; MAX_NODES],
    numbers: &'a [u8; MAX_NODES],
    firsts: &[u32; MAX_NODES],
    k: u32,
    y: usize,
) -> u32
    requires { (k ≤ max_steps) × Low firsts.now }
    ensures { (result ≡ seat_by kinds.now numbers.now firsts.now k y) × (result < bound) }
{
    let first = number_at(firsts, y);
    if node_rows::byte_at(kinds, y) == node_rows::FORMULA_DURATION {
        let n = u32::from(node_rows::byte_at(numbers, y));
        return first + n * Interval::count(k as usize) as u32;
    }
    first
}

// The first variables of the truths of all rows, for those who ask often.
pub fn put_seats<'a>(
    kinds: &'a [u8; MAX_NODES],
    numbers: &'a [u8; MAX_NODES],
    firsts: &[u32; MAX_NODES],
    k: u32,
    seats: &mut [u32; MAX_NODES],
)
    requires { (k ≤ max_steps) × Low firsts.now × (length seats.old ≡ max_nodes) }
    ensures { Seated kinds.now numbers.now firsts.now k seats.new max_nodes }
{
    for (y, place) in seats.iter_mut().enumerate() {
        *place = seat(kinds, numbers, firsts, k, y);
    }
}

// The block of the node at row x: its first part is at the next row.
pub fn block_at<'a>(
    kinds: &'a [u8; MAX_NODES],
    numbers: &'a [u8; MAX_NODES],
    sizes: &'a [u8; MAX_NODES],
    firsts: &[u32; MAX_NODES],
    k: u32,
    x: usize,
) -> Block
    requires { (k ≤ max_steps) × (x < max_nodes) × Low firsts.now }
    ensures value { result ≡ block_by kinds.now numbers.now sizes.now firsts.now k x }
    ensures by_index { (c : ℕ) → c ≤ max_channels → Fine c k result }
{
    let kind = node_rows::byte_at(kinds, x);
    let left = seat(kinds, numbers, firsts, k, x + 1);
    let right = seat(kinds, numbers, firsts, k, node_calls::second(sizes, x));
    Block {
        rule: table_blocks::rule_of(kind, node_rows::byte_at(numbers, x)),
        points: table_sizes::points_of(kind, k, Interval::count(k as usize) as u32),
        first: number_at(firsts, x),
        left,
        right,
    }
}

// The sizes of a formula, by its node table, and the first variable of each node: one sum along the nodes, for each of the three.
fn sizes_of<'a>(
    kinds: &'a [u8; MAX_NODES],
    numbers: &'a [u8; MAX_NODES],
    count: usize,
    c: u32,
    k: u32,
    firsts: &mut [u32; MAX_NODES],
) -> Sizes
    requires { (c ≤ max_channels) × (k ≤ max_steps) × (count ≤ max_nodes) × (length firsts.old ≡ max_nodes) × Low firsts.old }
    ensures { Measured c k kinds.now numbers.now count firsts.new result }
{
    let clauses = table_sizes::sums(kinds, numbers, count, k, table_sizes::clauses(), 1, firsts);
    let literals = table_sizes::sums(kinds, numbers, count, k, table_sizes::literals(), 1, firsts);
    let start = 1 + k * c;
    let end = table_sizes::sums(
        kinds,
        numbers,
        count,
        k,
        table_sizes::variables(),
        start,
        firsts,
    );
    Sizes {
        channels: c,
        steps: k,
        variables: end - 1,
        clauses,
        literals,
    }
}

// How a formula's table is laid out, by its node table.
pub fn layout_of(table: NodeTable, c: u32, k: u32) -> Layout
    requires { (c ≤ max_channels) × (k ≤ max_steps) × (table.count ≤ max_nodes) }
    ensures { Measured c k table.kinds table.numbers table.count result.firsts result.sizes }
{
    let mut firsts = [0; MAX_NODES];
    let sizes = sizes_of(&table.kinds, &table.numbers, table.count, c, k, &mut firsts);
    Layout { sizes, firsts }
}
