// For each row of the node table the row that it is a part of: the nearest before it whose nodes it is among.
#![tactic(auto)]

ghost use Rattle.std.specs.Prelude.{◌≡◌, ◌≤◌, ◌<◌, length, get_or};
ghost use Rattle.paper_grammar.specs.Limits.{max_nodes};
ghost use Rattle.search_fanout.specs.Fanout.{Nearest};
ghost use Rattle.search_parents.specs.Parents.{NearestTo};

use paper_grammar::MAX_NODES;

// The nearest row before z whose nodes z is among: every row is among the root's.
fn nearest(sizes: &[u8; MAX_NODES], z: usize) -> usize
    requires { (0 < z) × (z < max_nodes) × (z < get_or sizes.now 0 0) }
    ensures { NearestTo sizes.now z result }
{
    let mut y = z - 1;
    while y + node_rows::byte_at(sizes, y) as usize <= z {
        y -= 1;
    }
    y
}

// The rows that the rows are parts of; the root's is itself.
pub fn put_parents(sizes: &[u8; MAX_NODES], count: usize, parents: &mut [u8; MAX_NODES])
    requires { (0 < count) × (count ≤ max_nodes) × (count ≤ get_or sizes.now 0 0) × (length parents.old ≡ max_nodes) }
    ensures { Nearest sizes.now parents.new count }
{
    parents[0] = 0;
    for z in 1..count {
        parents[z] = nearest(sizes, z) as u8;
    }
}
