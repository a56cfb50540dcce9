// Questions 15 to 18 of the file's writer and of its reader.
#![tactic(auto)]

ghost use Rattle.std.specs.Prelude.{◌≡◌, Err};
ghost use Rattle.refusal.specs.Asked.{asked, ok};
ghost use Rattle.file_numbers.specs.File.{variables_at};
ghost use Rattle.file_numbers.specs.Held.{Held};
ghost use Rattle.file_questions.specs.Questions.{all_pass, how_many, in_limits, is_variable, is_mark, closes, ends_closed, ask_file, ask_arrays};
ghost use Rattle.file_questions.specs.Questions.{ask_entries, ask_closed, ask_file_room, entry_questions, array_questions, file_questions};
ghost use Rattle.file_questions.specs.Fit.{OfVariables};

use file_numbers::SIZES_BYTES;
use interval::Interval;
use refusal::Refusal;
use table_layout::Sizes;

// C and k as in questions 1 and 2.
#[tactic(auto, unfolding(crate::specs::Questions::in_limits))]
fn in_limits(s: Sizes) -> bool
    ensures { result ≡ in_limits s }
{
    formula_text::ask_channels(s.channels).is_ok() && Interval::ask_steps(s.steps as usize).is_ok()
}

// Whether a number is a variable's.
fn is_variable(v: u32, most: u32) -> bool
    ensures { result ≡ is_variable most v }
{
    (1..=most).contains(&v)
}

// Whether each is.
fn are_variables(variables: &[u32], most: u32) -> bool
    ensures { result ≡ all_pass (is_variable most) variables.now }
{
    // By hand, as in the two tests below: `all` asks one by one, and takes up to twice as long.
    for &v in variables {
        if !is_variable(v, most) {
            return false;
        }
    }
    true
}

// Whether each in a file is.
fn are_variables_at(file: &[u8], s: Sizes) -> bool
    requires { Held file.now s }
    ensures { result ≡ all_pass (is_variable s.variables) (variables_at file.now) }
{
    for e in 0..s.literals as usize {
        if !is_variable(
            file_numbers::number_at(file, SIZES_BYTES + 4 * e),
            s.variables,
        ) {
            return false;
        }
    }
    true
}

// Whether each is a mark.
fn are_marks(marks: &[u8]) -> bool
    ensures { result ≡ all_pass is_mark marks.now }
{
    for &m in marks {
        if m > 3 {
            return false;
        }
    }
    true
}

// How many marks close a clause.
fn closing(marks: &[u8]) -> usize
    ensures { result ≡ how_many closes marks.now }
{
    let mut n = 0;
    // A sum and not `filter` and `count`, whose branch at each mark takes longer.
    for &m in marks {
        n += usize::from(m >= 2);
    }
    n
}

// Whether the last mark, if there is one, closes a clause.
fn ends_closed(marks: &[u8]) -> bool
    ensures { result ≡ ends_closed marks.now }
{
    marks.last().is_none_or(|&m| m >= 2)
}

// Question 16, once it is known whether every variable is from 1 to V.
#[tactic(auto, unfolding(crate::specs::Questions::ask_entries))]
fn ask_entries(s: Sizes, fit: bool, marks: &[u8]) -> Result<(), Refusal>
    ensures { OfVariables s fit (λ variables. result ≡ ask_entries s variables marks.now) }
{
    refusal::ask(16, in_limits(s) && fit && are_marks(marks))
}

// Question 17.
#[tactic(auto, unfolding(crate::specs::Questions::ask_closed))]
fn ask_closed(clauses: u32, marks: &[u8]) -> Result<(), Refusal>
    ensures { result ≡ ask_closed clauses marks.now }
{
    refusal::ask(17, clauses as usize == closing(marks) && ends_closed(marks))
}

// Both.
fn ask_table(s: Sizes, fit: bool, marks: &[u8]) -> Result<(), Refusal>
    ensures { OfVariables s fit (λ variables. result ≡ asked (entry_questions s variables marks.now) Err ok) }
{
    ask_entries(s, fit, marks)?;
    ask_closed(s.clauses, marks)
}

// Question 15 of the writer.
#[tactic(auto, unfolding(crate::specs::Questions::ask_arrays))]
fn ask_lengths(literals: u32, variables: usize, marks: usize) -> Result<(), Refusal>
    ensures { result ≡ ask_arrays literals variables marks }
{
    let l = literals as usize;
    refusal::ask(15, variables == l && marks == l)
}

// Questions 15 to 17 of the writer.
pub fn ask_arrays(s: Sizes, variables: &[u32], marks: &[u8]) -> Result<(), Refusal>
    ensures { result ≡ asked (array_questions s variables.now marks.now) Err ok }
{
    ask_lengths(s.literals, variables.len(), marks.len())?;
    ask_table(s, are_variables(variables, s.variables), marks)
}

// Question 15 of the reader.
#[tactic(auto, unfolding(crate::specs::Questions::ask_file, file_numbers::specs::File::sizes_at))]
fn ask_length(file: &[u8]) -> Result<(), Refusal>
    ensures { result ≡ ask_file file.now }
{
    refusal::ask(
        15,
        file.len() >= SIZES_BYTES
            && file.len() == file_numbers::file_length(file_numbers::number_at(file, 16)),
    )
}

// Questions 15 to 17 of the reader.
#[tactic(auto, using(crate::proofs::Asking::file_long, crate::proofs::Asking::file_held))]
pub fn ask_file(file: &[u8]) -> Result<(), Refusal>
    ensures { result ≡ asked (file_questions file.now) Err ok }
{
    ask_length(file)?;
    let s = file_numbers::sizes_at(file);
    ask_table(
        s,
        are_variables_at(file, s),
        file_numbers::marks_at(file, s),
    )
}

// Question 18 of the writer.
#[tactic(auto, unfolding(crate::specs::Questions::ask_file_room))]
pub fn ask_bytes(literals: u32, file: usize) -> Result<(), Refusal>
    ensures { result ≡ ask_file_room literals file }
{
    refusal::ask(18, file_numbers::file_length(literals) <= file)
}
