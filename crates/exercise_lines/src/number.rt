// A number of an exercise's lines: of channels, of steps, of tries.
ghost use Rattle.std.specs.Prelude.{◌≡◌};
ghost use Rattle.formula_reader.specs.Parts.{value_from};
ghost use Rattle.formula_scan.specs.Scans.{capped_at};
ghost use Rattle.exercise_lines.specs.Number.{max_tries};

// The most tries that a search's limit allows.
pub const MAX_TRIES: u64 = u32::MAX as u64;

// Why a text is no number.
#[derive(Clone, Copy, Debug, PartialEq, Eq)]
pub enum NumberError {
    // It has a zero before it.
    Zero,
    // It is not written in digits alone.
    Digits,
}

// A number, written like a formula's n. The engine's own reader reads it, as it does for the file program, so that both take the same:
// all above n's limit are one above it here, too much for the channels and for the steps alike.
pub fn decimal(text: &[u8]) -> Result<u32, NumberError> {
    let end = formula_reader::numbered_by(text, Ok(0)).map_err(|_| NumberError::Digits)?;
    match text.get(end) {
        None => Ok(formula_scan::number_at(text, 0) as u32),
        // Of digits only a 0 ends before the last.
        Some(b) if formula_bytes::is_digit(*b) => Err(NumberError::Zero),
        Some(_) => Err(NumberError::Digits),
    }
}

// The number that digits write, one above the most tries for all beyond.
pub fn value(digits: &[u8]) -> u64
    ensures { result ≡ capped_at max_tries (value_from 0 digits.now) }
{
    formula_scan::capped_number(digits, 0, MAX_TRIES)
}
