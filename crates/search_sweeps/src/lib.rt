// Every gate of the circuit visited, node after node.
#![tactic(auto)]

ghost use Rattle.std.specs.Prelude.{ℕ, ◌≤◌, ◌<◌, length};
ghost use Rattle.interval.specs.Rows.{RowsOf};
ghost use Rattle.interval.specs.Limits.{max_steps};
ghost use Rattle.paper_grammar.specs.Limits.{max_nodes, max_channels};
ghost use Rattle.table_layout.specs.Rows.{Low, row_definitions};
ghost use Rattle.table_gates.specs.Mentioned.{Variable, AllMentioned};
ghost use Rattle.search_closing.specs.Values.{Trailing};
ghost use Rattle.search_visits.specs.Visits.{Visits};
ghost use Rattle.search_fanout.specs.Wiring.{root_in, nodes_in, clauses_in};

use paper_circuit::Gate;
use search_closing::Closed;
use search_fanout::Wiring;

// All nodes, in number order.
fn sweep_nodes(values: &mut [u8], trail: &mut [u32], top: usize, wiring: &Wiring) -> Closed
    requires limits { let w = wiring.now in (w.c ≤ max_channels) × (w.k ≤ max_steps) × (w.table.count ≤ max_nodes)
        × Low w.firsts × Trailing values.old trail.old top × RowsOf w.k w.rows.now }
    requires by_index { let w = wiring.now in (x : ℕ) → x < w.table.count → AllMentioned (length values.old)
        (row_definitions w.c w.k w.table.kinds w.table.numbers w.table.sizes w.firsts x) }
    ensures { Visits (nodes_in wiring.now wiring.now.table.count) values trail top result }
{
    let table = &wiring.table;
    let mut t = top;
    for x in 0..table.count {
        let block = table_layout::block_at(
            &table.kinds,
            &table.numbers,
            &table.sizes,
            &wiring.firsts,
            wiring.k,
            x,
        );
        let r = search_sweep_node::sweep_node(values, trail, t, wiring, block);
        if r.clash {
            return r;
        }
        t = r.top;
    }
    Closed {
        clash: false,
        top: t,
    }
}

// All nodes, and the root.
pub fn sweep(values: &mut [u8], trail: &mut [u32], top: usize, wiring: &Wiring) -> Closed
    requires limits { let w = wiring.now in (w.c ≤ max_channels) × (w.k ≤ max_steps) × (w.table.count ≤ max_nodes)
        × Low w.firsts × Trailing values.old trail.old top × RowsOf w.k w.rows.now }
    requires variable { Variable (length values.old) (root_in wiring.now) }
    requires by_index { let w = wiring.now in (x : ℕ) → x < w.table.count → AllMentioned (length values.old)
        (row_definitions w.c w.k w.table.kinds w.table.numbers w.table.sizes w.firsts x) }
    ensures { Visits (clauses_in wiring.now) values trail top result }
{
    let r = sweep_nodes(values, trail, top, wiring);
    if r.clash {
        return r;
    }
    let table = &wiring.table;
    let root = table_layout::seat(&table.kinds, &table.numbers, &wiring.firsts, wiring.k, 0)
        + wiring.k;
    search_gate::visit(values, trail, r.top, root, Gate::Constant(true))
}
