// What the lines of a search ask for.
use crate::Fault;
use exercise_lines::{after_line, line};

// The most tries of a search that is given no limit.
pub const TRIES: u32 = 100000;

// What a search is asked for: a recording of so many steps, within a limit of tries.
#[derive(Clone, Copy, Debug, PartialEq, Eq)]
pub struct Sought {
    pub steps: u32,
    pub limit: u32,
}

// The limit after tries=, written like any number; one above the most does not fit.
fn limit_of(text: &[u8]) -> Result<u32, Fault> {
    crate::number(text, Fault::Tries)?;
    u32::try_from(exercise_lines::number::value(text)).map_err(|_| Fault::Many)
}

// The limit that the lines after a search's formula give: there are none, or one.
fn take_limit(lines: &[u8]) -> Result<u32, Fault> {
    if lines.is_empty() {
        return Ok(TRIES);
    }
    let text = line(lines).strip_prefix(b"tries=").ok_or(Fault::Rest)?;
    if !after_line(lines).is_empty() {
        return Err(Fault::Rest);
    }
    limit_of(text)
}

// What the lines of a search, after the number of channels, ask for. Its formula is the second.
pub fn take_search(lines: &[u8]) -> Result<Sought, Fault> {
    let rest = after_line(lines);
    if rest.is_empty() {
        return Err(Fault::Few);
    }
    let steps = crate::number(line(lines), Fault::Second)?;
    let limit = take_limit(after_line(rest))?;
    Ok(Sought { steps, limit })
}
