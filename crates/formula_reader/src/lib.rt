// Reads document 01's grammar: channels a to h; length, n and nodes unbounded.
#![tactic(auto)]

ghost use Rattle.std.specs.Prelude.{◌≡◌, ◌+◌, ◌≤◌, length, drop};
ghost use Rattle.paper_grammar.specs.Reader.{is_joint};
ghost use Rattle.formula_reader.specs.Parts.{test_at, is_sign, number_at, digit_count, on_good, PartAt, end_of, parse_text};

use paper_grammar::{Lead, Sort};

// A good read with the byte v after it: the place after that, or where the read stops.
pub fn signed_by(text: &[u8], v: u8, before: Result<usize, usize>) -> Result<usize, usize>
    ensures { result ≡ on_good text.now (test_at (is_sign v)) before }
{
    let at = before?;
    if at < text.len() && text[at] == v {
        Ok(at + 1)
    } else {
        Err(at)
    }
}

// A joint of the sort at a place, likewise.
fn joined_by(text: &[u8], s: Sort, at: usize) -> Result<usize, usize>
    ensures { result ≡ test_at (is_joint s) at (drop at text.now) }
{
    if at < text.len() && formula_bytes::is_joint(s, text[at]) {
        Ok(at + 1)
    } else {
        Err(at)
    }
}

// The place after the digits from a place on.
fn digits_end(text: &[u8], at: usize) -> usize
    requires { at ≤ length text.now }
    ensures { result ≡ at + digit_count (drop at text.now) }
{
    for (n, &b) in text[at..].iter().enumerate() {
        if !formula_bytes::is_digit(b) {
            return at + n;
        }
    }
    text.len()
}

// A good read with a number after it, likewise.
pub fn numbered_by(text: &[u8], before: Result<usize, usize>) -> Result<usize, usize>
    ensures { result ≡ on_good text.now number_at before }
{
    let first = before?;
    if first >= text.len() {
        return Err(first);
    }
    let b = text[first];
    if b == b'0' {
        return Ok(first + 1);
    }
    if formula_bytes::is_digit(b) {
        return Ok(digits_end(text, first + 1));
    }
    Err(first)
}

// A part of the sort from a place on. It calls itself on its parts; the bytes that remain fall.
fn read_part(text: &[u8], s: Sort, at: usize) -> Result<usize, usize>
    requires { at ≤ length text.now }
    ensures { PartAt text.now s at result }
{
    if at >= text.len() {
        return Err(at);
    }
    let next = at + 1;
    match formula_bytes::lead_of(s, text[at]) {
        Lead::Leaf => Ok(next),
        Lead::Not => read_part(text, s, next),
        Lead::Open => {
            let first = read_part(text, s, next)?;
            let joint = joined_by(text, s, first)?;
            signed_by(text, b')', read_part(text, s, joint))
        }
        Lead::Measure => {
            let above = signed_by(text, b'>', read_part(text, Sort::State, next));
            numbered_by(text, signed_by(text, b'=', above))
        }
        Lead::Enter => signed_by(text, b']', read_part(text, Sort::State, next)),
        Lead::Other => Err(at),
    }
}

// Where reading a part of the sort from a place on stops.
pub fn part_end(text: &[u8], s: Sort, at: usize) -> usize
    ensures { (result ≡ end_of text.now s at) × (result ≤ length text.now) }
{
    if at > text.len() {
        return text.len();
    }
    match read_part(text, s, at) {
        Ok(n) => n,
        Err(p) => p,
    }
}

// Whether the whole text reads, or where it stops.
pub fn check_text(text: &[u8]) -> Result<(), usize>
    ensures { result ≡ parse_text text.now }
{
    let end = read_part(text, Sort::Formula, 0)?;
    if end < text.len() {
        return Err(end);
    }
    Ok(())
}
