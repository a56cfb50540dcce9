// Whether a recording satisfies a formula on [i, j]: the questions, and the truth that the formula's table has there.
#![tactic(auto)]

ghost use Rattle.std.specs.Prelude.{◌≡◌, ◌≤◌, length};
ghost use Rattle.interval.specs.Limits.{max_steps, IntervalOf};
ghost use Rattle.paper_grammar.specs.Limits.{max_channels};
ghost use Rattle.paper_grammar.specs.declared.Sort.TheVariants.{Formula};
ghost use Rattle.truth_calls.specs.Evaluation.{evaluated};
ghost use Rattle.truth_calls.specs.Rows.{judged};
ghost use Rattle.truth_rows.specs.Rows.{AtRow};

use interval::Interval;
use node_rows::NodeTable;
use refusal::Refusal;

// The formula's truth on an interval, from its node table.
fn holds_on(table: NodeTable, recording: &[u8], v: Interval) -> bool
    requires { (length recording.now ≤ max_steps) × IntervalOf (length recording.now) v }
    ensures { AtRow recording.now table.kinds table.numbers table.sizes Formula 0 (λ f. result ≡ f v) }
{
    let k = recording.len() as u32;
    let mut rows = [0; Interval::MAX_ROWS];
    Interval::put_rows(&mut rows, k);
    let t = truth_rows::table_at(
        &table.kinds,
        &table.numbers,
        &table.sizes,
        recording,
        &rows,
        0,
    );
    t[Interval::place(&rows, k, v.i as u32, (v.j - v.i) as u32) as usize] == 1
}

// What an accepted formula and an interval answer: questions 10 and 11, then the truth. Only a recording of k bytes is asked the last.
#[tactic(auto, using(paper_meaning::proofs::Recording::recording_length))]
fn verdict_on(
    table: NodeTable,
    c: u32,
    k: u32,
    recording: &[u8],
    v: Interval,
) -> Result<bool, Refusal>
    requires { (c ≤ max_channels) × (k ≤ max_steps) × IntervalOf k v }
    ensures { AtRow recording.now table.kinds table.numbers table.sizes Formula 0 (λ f. result ≡ judged c k recording.now (f v)) }
{
    recording_questions::ask_recording(k, recording)?;
    recording_questions::ask_bytes(c, recording)?;
    Ok(holds_on(table, recording, v))
}

// Whether the recording satisfies the formula on [i, j].
#[tactic(auto, using(crate::proofs::Laws::refused_first, crate::proofs::Laws::not_made, crate::proofs::Laws::within))]
pub fn evaluate(
    text: &[u8],
    c: u32,
    k: u32,
    i: u32,
    j: u32,
    recording: &[u8],
) -> Result<bool, Refusal>
    ensures { result ≡ evaluated c k i j text.now recording.now }
{
    let table = node_calls::node_table(text, c, k)?;
    let v = Interval::new(i as usize, j as usize, k as usize)?;
    verdict_on(table, c, k, recording, v)
}
