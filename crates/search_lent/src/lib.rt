// The search in its lent arrays: what the queue goes by, and the parts of them that it takes.
#![tactic(auto)]

ghost use Rattle.std.specs.Prelude.{◌≡◌, ◌≤◌, length, Ok};
ghost use Rattle.interval.specs.Limits.{max_steps};
ghost use Rattle.paper_grammar.specs.Limits.{max_nodes, max_channels};
ghost use Rattle.paper_grammar.specs.Trees.{Tree};
ghost use Rattle.paper_grammar.specs.declared.Sort.TheVariants.{Formula};
ghost use Rattle.node_calls.specs.Rows.{node_table_of, TableFor};
ghost use Rattle.table_layout.specs.Rows.{Measured};
ghost use Rattle.paper_search.specs.Search.{tree_of, limited};
ghost use Rattle.paper_search.specs.Left.{left};

use interval::Interval;
use node_rows::NodeTable;
use paper_grammar::MAX_NODES;
use paper_search::Answer;
use search_fanout::Wiring;
use table_layout::Layout;

// The search of an accepted formula whose sizes fit the lent arrays: what the queue goes by, and the tree of tries.
pub fn search_lent(
    table: NodeTable,
    layout: Layout,
    c: u32,
    k: u32,
    limit: u32,
    values: &mut [u8],
    trail: &mut [u32],
    recording: &mut [u8],
) -> Answer
    requires c_le_max_channels { (c ≤ max_channels) × (k ≤ max_steps) × (table.count ≤ max_nodes) × ((f : Tree Formula) × TableFor c f table) }
    requires measured { Measured c k table.kinds table.numbers table.count layout.firsts layout.sizes }
    requires variables_in_bounds { (layout.sizes.variables ≤ length values.old) × (layout.sizes.variables ≤ length trail.old) × (k ≤ length recording.old) }
    ensures { (f : Tree Formula) → table ≡ node_table_of f
        → left (Ok result) recording ≡ limited c k limit recording.old (tree_of c k f) }
{
    let mut intervals = [0; Interval::MAX_COUNT];
    let mut starts = [0; Interval::MAX_ENDS];
    let mut rows = [0; Interval::MAX_ROWS];
    search_decode::put_tables(&mut intervals, &mut starts, &mut rows, k);
    let Layout { sizes, firsts } = layout;
    let mut wiring = Wiring {
        table,
        firsts,
        seats: [0; MAX_NODES],
        parents: [0; MAX_NODES],
        intervals: &intervals,
        starts: &starts,
        rows: &rows,
        c,
        k,
        all: Interval::all(&rows, k),
    };
    let w = &mut wiring;
    table_layout::put_seats(&w.table.kinds, &w.table.numbers, &w.firsts, k, &mut w.seats);
    search_parents::put_parents(&w.table.sizes, w.table.count, &mut w.parents);
    let v = sizes.variables as usize;
    search_draw::draw(
        &mut values[..v],
        &mut trail[..v],
        &mut recording[..k as usize],
        &wiring,
        limit,
    )
}
