// A word for each state assertion and a table for each formula, from the parts up.
#![tactic(auto)]

ghost use Rattle.std.specs.Prelude.{◌≤◌, length};
ghost use Rattle.interval.specs.Limits.{max_steps};
ghost use Rattle.interval.specs.Rows.{RowsOf};
ghost use Rattle.paper_grammar.specs.declared.Sort.TheVariants.{State, Formula};
ghost use Rattle.paper_meaning.specs.Words.{WordOf};
ghost use Rattle.truth_table.specs.Table.{TableOf};
ghost use Rattle.truth_rows.specs.Rows.{AtRow};

use interval::Interval;
use node_calls::second;
use node_rows::byte_at;
use paper_grammar::{MAX_CHANNELS, MAX_NODES};
use truth_table::Measure;

// The word of the state assertion at row x. Past the table stands a 0, the kind of `F`, which has no parts.
fn word_at<'a>(
    kinds: &'a [u8; MAX_NODES],
    numbers: &'a [u8; MAX_NODES],
    sizes: &'a [u8; MAX_NODES],
    recording: &[u8],
    x: usize,
) -> u32
    requires { length recording.now ≤ max_steps }
    ensures { AtRow recording.now kinds.now numbers.now sizes.now State x (λ f. WordOf (length recording.now) f result) }
{
    let kind = byte_at(kinds, x);
    match kind {
        node_rows::FALSE => return truth_word::constant_word(false),
        node_rows::TRUE => return truth_word::constant_word(true),
        node_rows::LETTER => {
            let c = byte_at(numbers, x) as usize % MAX_CHANNELS;
            return truth_word::word_of(recording, c, recording.len());
        }
        node_rows::NOT => {
            return truth_word::inverse_word(word_at(kinds, numbers, sizes, recording, x + 1));
        }
        _ => {
            let p = word_at(kinds, numbers, sizes, recording, x + 1);
            let q = word_at(kinds, numbers, sizes, recording, second(sizes, x));
            return truth_word::joined_word(kind == node_rows::AND, p, q);
        }
    }
}

// The table of the formula at row x.
pub fn table_at<'a>(
    kinds: &'a [u8; MAX_NODES],
    numbers: &'a [u8; MAX_NODES],
    sizes: &'a [u8; MAX_NODES],
    recording: &[u8],
    rows: &[u32],
    x: usize,
) -> [u8; Interval::MAX_COUNT]
    requires { (length recording.now ≤ max_steps) × RowsOf (length recording.now) rows.now }
    ensures { AtRow recording.now kinds.now numbers.now sizes.now Formula x (λ f. TableOf (length recording.now) f result) }
{
    let k = recording.len();
    let kind = byte_at(kinds, x) % node_rows::FORMULA;
    match kind {
        node_rows::FALSE => return truth_table::constant_table(false),
        node_rows::TRUE => return truth_table::constant_table(true),
        node_rows::DURATION => {
            let word = word_at(kinds, numbers, sizes, recording, x + 1);
            return truth_table::measured_table(Measure::AtLeast(byte_at(numbers, x)), word, k);
        }
        node_rows::THROUGHOUT => {
            let word = word_at(kinds, numbers, sizes, recording, x + 1);
            return truth_table::measured_table(Measure::Throughout, word, k);
        }
        node_rows::NOT => {
            let mut p = table_at(kinds, numbers, sizes, recording, rows, x + 1);
            truth_table::inverse(&mut p, rows, k);
            return p;
        }
        _ => {
            let mut p = table_at(kinds, numbers, sizes, recording, rows, x + 1);
            let q = table_at(kinds, numbers, sizes, recording, rows, second(sizes, x));
            if kind == node_rows::CHOP {
                return truth_chop::chop_table(&p, &q, rows, k);
            }
            truth_table::join(kind == node_rows::AND, &mut p, &q, rows, k);
            return p;
        }
    }
}
