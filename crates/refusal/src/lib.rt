// A refusal by document 01's number and place, and the reply to one question.
#![tactic(auto)]

ghost use Rattle.std.specs.Prelude.{◌≡◌, ◌&&◌, leb};
ghost use Rattle.refusal.specs.Asked.{question};

// The question that was answered with no, by its number in document 01, and the place that the question names
// (a byte of the text, an instant, a clause): 0 where it names none.
#[derive(Clone, Copy)]
pub struct Refusal {
    pub number: u32,
    pub place: u32,
}

// The reply to a question that names no place, by its test.
pub fn ask(number: u32, test: bool) -> Result<(), Refusal>
    ensures { result ≡ question number 0 test }
{
    if test {
        return Ok(());
    }
    Err(Refusal { number, place: 0 })
}

// The same: is x from low to high?
pub fn ask_within(number: u32, x: usize, low: usize, high: usize) -> Result<(), Refusal>
    ensures { result ≡ question number 0 (leb low x && leb x high) }
{
    if x >= low {
        if x <= high {
            return Ok(());
        }
    }
    Err(Refusal { number, place: 0 })
}
