// The parts of a line: C, k and where the text stands.
ghost use Rattle.std.specs.Prelude.{◌≡◌, drop};
ghost use Rattle.file_line.specs.Line.{number, blank, text_last, steps_next, read_line};
ghost use Rattle.file_line.specs.Parts.{taken_by, capped_taken, line_by, capped_line, PartsWithin};

// A number, one above the limit for all beyond, and the place after the blank that follows it.
#[derive(Clone, Copy)]
struct Item {
    value: u32,
    next: usize,
}

// C and k, and where the text stands.
#[derive(Clone, Copy)]
pub struct Parts {
    pub c: u32,
    pub k: u32,
    pub first: usize,
    pub end: usize,
}

// The number and the blank from a place on.
#[tactic(auto, using(crate::proofs::Reading::no_number, crate::proofs::Reading::no_blank))]
fn item_at(input: &[u8], at: usize) -> Option<Item>
    ensures { taken_by input.now result ≡ capped_taken (blank (number (drop at input.now))) }
{
    let end = formula_reader::numbered_by(input, Ok(at)).ok()?;
    let next = formula_reader::signed_by(input, b' ', Ok(end)).ok()?;
    let value = formula_scan::number_at(input, at) as u32;
    Some(Item { value, next })
}

// The text from a place on, and the line feed after it.
fn text_at(input: &[u8], c: u32, k: u32, first: usize) -> Option<Parts>
    ensures { (line_by input.now result ≡ text_last c k (drop first input.now)) × PartsWithin input.now result }
{
    if first < input.len() {
        let end = input.len() - 1;
        if input[end] == b'\n' {
            return Some(Parts { c, k, first, end });
        }
    }
    None
}

// k and the text from a place on.
fn steps_at(input: &[u8], c: u32, at: usize) -> Option<Parts>
    ensures { (line_by input.now result ≡ steps_next c (capped_taken (blank (number (drop at input.now))))) × PartsWithin input.now result }
{
    let k = item_at(input, at)?;
    text_at(input, c, k.value, k.next)
}

// The parts of a line.
#[tactic(auto, using(crate::proofs::Reading::line_good, crate::proofs::Reading::line_bad))]
pub fn read_line(input: &[u8]) -> Option<Parts>
    ensures { (line_by input.now result ≡ capped_line (read_line input.now)) × PartsWithin input.now result }
{
    let c = item_at(input, 0)?;
    steps_at(input, c.value, c.next)
}
