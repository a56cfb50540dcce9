// Every gate of a node visited, one after another.
#![tactic(auto)]

ghost use Rattle.std.specs.Prelude.{◌+◌, ◌≤◌, ◌<◌, length};
ghost use Rattle.interval.specs.Rows.{RowsOf};
ghost use Rattle.interval.specs.Limits.{max_count};
ghost use Rattle.interval.specs.Places.{count_of};
ghost use Rattle.table_blocks.specs.Blocks.{is_chop, defined_by, Bounded};
ghost use Rattle.paper_clauses.specs.Clauses.{clauses_by};
ghost use Rattle.table_nodes.specs.Nodes.{chopped_by, node_by, Fine};
ghost use Rattle.table_gates.specs.Mentioned.{AllMentioned};
ghost use Rattle.search_closing.specs.Values.{Trailing};
ghost use Rattle.search_visits.specs.Visits.{Visits};

use search_closing::Closed;
use search_fanout::Wiring;
use table_blocks::Block;
use table_nodes::cursor::Cursor;

// The gates of a block, one after another.
fn sweep_block(
    values: &mut [u8],
    trail: &mut [u32],
    top: usize,
    wiring: &Wiring,
    block: Block,
) -> Closed
    requires bounded { (Bounded wiring.now.c wiring.now.k block × (block.points ≤ max_count)) × Trailing values.old trail.old top
        × RowsOf wiring.now.k wiring.now.rows.now }
    requires all_mentioned { AllMentioned (length values.old) (defined_by wiring.now.c wiring.now.k block) }
    ensures { Visits (clauses_by (defined_by wiring.now.c wiring.now.k block)) values trail top result }
{
    let mut cursor = Cursor::start(wiring.rows, wiring.k, block);
    let mut t = top;
    while cursor.place < cursor.end {
        let gate = table_blocks::gate_at(
            wiring.c,
            wiring.rows,
            wiring.k,
            cursor.all,
            block,
            cursor.place,
            cursor.position,
        );
        let r = search_gate::visit(values, trail, t, block.first + cursor.place, gate);
        if r.clash {
            return r;
        }
        t = r.top;
        cursor = cursor.next(wiring.k, block);
    }
    Closed {
        clash: false,
        top: t,
    }
}

// A chop: its triples, then its intervals.
fn sweep_chop(
    values: &mut [u8],
    trail: &mut [u32],
    top: usize,
    wiring: &Wiring,
    block: Block,
) -> Closed
    requires fine { Fine wiring.now.c wiring.now.k block × Trailing values.old trail.old top × RowsOf wiring.now.k wiring.now.rows.now }
    requires all_mentioned { AllMentioned (length values.old) (chopped_by wiring.now.c wiring.now.k (block.first + count_of wiring.now.k) block) }
    ensures { Visits (clauses_by (chopped_by wiring.now.c wiring.now.k (block.first + count_of wiring.now.k) block)) values trail top result }
{
    let w = table_nodes::beyond(block.first, wiring.rows, wiring.k);
    let triples = table_nodes::triples_of(w, block);
    let intervals = table_nodes::intervals_of(w, block);
    let r = sweep_block(values, trail, top, wiring, triples);
    if r.clash {
        return r;
    }
    sweep_block(values, trail, r.top, wiring, intervals)
}

// A node's own definitions.
pub fn sweep_node(
    values: &mut [u8],
    trail: &mut [u32],
    top: usize,
    wiring: &Wiring,
    block: Block,
) -> Closed
    requires fine { Fine wiring.now.c wiring.now.k block × Trailing values.old trail.old top × RowsOf wiring.now.k wiring.now.rows.now }
    requires all_mentioned { AllMentioned (length values.old) (node_by wiring.now.c wiring.now.k block (is_chop block.rule)) }
    ensures { Visits (clauses_by (node_by wiring.now.c wiring.now.k block (is_chop block.rule))) values trail top result }
{
    let rule = block.rule;
    if table_blocks::is_chop(rule) {
        return sweep_chop(values, trail, top, wiring, block);
    }
    sweep_block(values, trail, top, wiring, block)
}
