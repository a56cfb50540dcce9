// Goes through a text for the letters, numbers and nodes that questions 5 to 7 ask about.
#![tactic(auto)]

ghost use Rattle.std.specs.Prelude.{◌≡◌, true, suc, ◌+◌, ◌*◌, ◌-◌, ◌^◌, ◌≤◌, ◌<◌, length, take, drop, IfSome};
ghost use Rattle.std.specs.Option.{option_to_list};
ghost use Rattle.paper_grammar.specs.Limits.{max_number, max_length};
ghost use Rattle.paper_grammar.specs.Reader.{is_digit};
ghost use Rattle.formula_reader.specs.Parts.{value_from};
ghost use Rattle.formula_scan.specs.Scans.{is_outside, above_at, capped_at, number_from, number_of, digit_of, answers_at, found_in};

use paper_grammar::{MAX_NUMBER, Sort};

// The number of a duration: its first digit's place, and its value, one above the limit for all beyond.
#[derive(Drop)]
pub struct Number {
    pub place: usize,
    pub value: usize,
}

// What questions 5 to 7 go through the text for.
#[derive(Clone, Copy)]
pub enum Ask {
    Letters(u32),
    Numbers,
    Nodes,
}

// Whether a byte is a letter that is not among the first C.
fn is_outside(c: u32, b: u8) -> bool
    ensures { result ≡ is_outside c b }
{
    if !formula_bytes::is_letter(b) {
        return false;
    }
    c <= u32::from(b - b'a')
}

// One digit more, one above the most for all beyond.
fn with_digit(v: u64, b: u8, most: u64) -> u64
    requires { (v ≤ suc most) × (most < 2 ^ 32) × (is_digit b ≡ true) }
    ensures { (result ≡ capped_at most (v * 10 + (b - 48))) × (result ≤ suc most) }
{
    let n = v * 10 + u64::from(b - b'0');
    if n <= most { n } else { most + 1 }
}

// The number from a place on, of any count of digits, one above the most for all beyond.
pub fn capped_number(text: &[u8], at: usize, most: u64) -> u64
    requires { most < 2 ^ 32 }
    ensures { (result ≡ capped_at most (value_from 0 (drop at text.now))) × (result ≤ suc most) }
{
    let mut v: u64 = 0;
    for &b in &text[at.min(text.len())..] {
        if !formula_bytes::is_digit(b) {
            return v;
        }
        v = with_digit(v, b, most);
    }
    v
}

// A formula's number from a place on.
pub fn number_at(text: &[u8], at: usize) -> usize
    ensures { (result ≡ number_from 0 (drop at text.now)) × (result ≤ suc max_number) }
{
    capped_number(text, at, MAX_NUMBER as u64) as usize
}

// The number of the duration that stands at a place.
fn number_of(text: &[u8], at: usize) -> Number
    requires { (length text.now ≤ max_length) × (at < length text.now) }
    ensures { (result.place ≡ digit_of text.now at) × (result.value ≡ number_of text.now at) × (result.value ≤ suc max_number) × (result.place ≤ max_length + 2) }
{
    let place = formula_reader::part_end(text, Sort::State, at + 1) + 2;
    Number {
        place,
        value: number_at(text, place),
    }
}

// The first digit of a number above the limit, at its duration's `#`.
fn number_find(text: &[u8], b: u8, i: usize) -> Option<usize>
    requires { (length text.now ≤ max_length) × (i < length text.now) }
    ensures { (option_to_list result ≡ above_at text.now b i) × IfSome result (λ p. p ≤ max_length + 2) }
{
    if b != b'#' {
        return None;
    }
    let n = number_of(text, i);
    (n.value > MAX_NUMBER).then_some(n.place)
}

// What a question finds at the byte b at i.
fn find_at(text: &[u8], a: Ask, b: u8, i: usize) -> Option<usize>
    requires { (length text.now ≤ max_length) × (i < length text.now) }
    ensures { (option_to_list result ≡ answers_at a text.now b i) × IfSome result (λ p. p ≤ max_length + 2) }
{
    match a {
        Ask::Letters(c) => is_outside(c, b).then_some(i),
        Ask::Numbers => number_find(text, b, i),
        Ask::Nodes => formula_bytes::is_start(b).then_some(i),
    }
}

// What a question finds first, after a number of finds.
pub fn first_find(text: &[u8], a: Ask, skip: usize) -> Option<usize>
    requires { length text.now ≤ max_length }
    ensures { (option_to_list result ≡ take 1 (drop skip (found_in a text.now))) × IfSome result (λ p. p ≤ max_length + 2) }
{
    let mut left = skip;
    for (i, &b) in text.iter().enumerate() {
        if let Some(place) = find_at(text, a, b, i) {
            if left == 0 {
                return Some(place);
            }
            left -= 1;
        }
    }
    None
}
