// Document 01's questions 1 to 7: whether a formula's text is accepted for C and k.
#![tactic(auto)]

ghost use Rattle.std.specs.Prelude.{◌≡◌, ◌+◌, ◌≤◌, length, drop, Err};
ghost use Rattle.refusal.specs.Asked.{asked, ok};
ghost use Rattle.paper_grammar.specs.Limits.{max_length};
ghost use Rattle.formula_scan.specs.Scans.{found_in};
ghost use Rattle.paper_grammar.specs.Questions.{at_first, ask_channels, ask_length, ask_grammar, text_questions, accept_of};

use formula_scan::Ask;
use interval::Interval;
use paper_grammar::{MAX_CHANNELS, MAX_LENGTH, MAX_NODES};
use refusal::Refusal;

// A no with a place of the text.
fn no(number: u32, place: usize) -> Refusal
    requires { place ≤ max_length + 2 }
    ensures { result ≡ record { number = number; place = place } }
{
    Refusal {
        number,
        place: place as u32,
    }
}

// Question 1.
pub fn ask_channels(c: u32) -> Result<(), Refusal>
    ensures { result ≡ ask_channels c }
{
    refusal::ask_within(1, c as usize, 1, MAX_CHANNELS)
}

// Question 3.
fn ask_length(text: &[u8]) -> Result<(), Refusal>
    ensures { result ≡ ask_length text.now }
{
    refusal::ask_within(3, text.len(), 1, MAX_LENGTH)
}

// Question 4.
#[tactic(auto, using(crate::proofs::Asked::stop_within, crate::proofs::Asked::grammar_reads, crate::proofs::Asked::grammar_stops))]
fn ask_grammar(text: &[u8]) -> Result<(), Refusal>
    requires { length text.now ≤ max_length }
    ensures { result ≡ ask_grammar text.now }
{
    formula_reader::check_text(text).map_err(|p| no(4, p))
}

// Questions 5, 6 and 7, of a text that reads.
fn ask_first(text: &[u8], number: u32, a: Ask, skip: usize) -> Result<(), Refusal>
    requires { length text.now ≤ max_length }
    ensures { result ≡ at_first number (drop skip (found_in a text.now)) }
{
    match formula_scan::first_find(text, a, skip) {
        Some(place) => Err(no(number, place)),
        None => Ok(()),
    }
}

// Whether a formula's text is accepted for C and k: questions 1 to 7.
#[tactic(auto, using(crate::proofs::Asked::length_most), unfolding(paper_grammar::specs::Questions::accept_of))]
pub fn accept(text: &[u8], c: u32, k: u32) -> Result<(), Refusal>
    ensures { result ≡ accept_of c k text.now }
{
    ask_channels(c)?;
    Interval::ask_steps(k as usize)?;
    ask_length(text)?;
    ask_text(text, c)
}

// Questions 4 to 7.
#[tactic(auto, using(crate::proofs::Found::letters_asked, crate::proofs::Found::numbers_asked, crate::proofs::Found::nodes_asked))]
fn ask_text(text: &[u8], c: u32) -> Result<(), Refusal>
    requires { length text.now ≤ max_length }
    ensures { result ≡ asked (text_questions c text.now) Err ok }
{
    ask_grammar(text)?;
    ask_first(text, 5, Ask::Letters(c), 0)?;
    ask_first(text, 6, Ask::Numbers, 0)?;
    ask_first(text, 7, Ask::Nodes, MAX_NODES)
}
