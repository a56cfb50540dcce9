// What the lines of an exercise say, or what is wrong with them. The number of channels comes first. A search goes on with the number
// of steps and a formula, and may end with `tries=1000`. Any other exercise goes on with a formula, and then either channels like
// `a=0110`, or `steps=8` and `file=` with the path of a clause file, in any order.
#![tactic(auto)]

ghost use Rattle.std.specs.Prelude.{◌≡◌, ◌⊎◌, IfErr};
ghost use Rattle.exercise_arguments.specs.declared.Fault.TheVariants.{Zero};

pub mod search;
pub mod task;

use exercise_lines::number::{MAX_TRIES, NumberError};
use thiserror::Error;

// What is wrong, in a student's words; of a channel, by its letter.
#[derive(Clone, Copy, Debug, PartialEq, Eq, Error)]
pub enum Fault {
    #[error("they are too long")]
    Long,
    #[error("the number of channels and the formula are needed, the formula in single quotes")]
    Few,
    #[error("the number of channels comes first")]
    Count,
    #[error("a number is written without a zero before it: 8, not 08")]
    Zero,
    #[error("a channel is given by its letter, = and its levels, as in a=0110")]
    Form,
    #[error("the number of channels is {count}, so there is no channel {letter}")]
    Outside { count: u32, letter: char },
    #[error("channel {0} is given twice")]
    Twice(char),
    #[error("channel {0} has a level that is neither 0 nor 1")]
    Level(char),
    #[error("channel {0} has more or fewer levels than the channels before it")]
    Uneven(char),
    #[error("steps= is followed by the number of steps, as in steps=8")]
    Steps,
    #[error("steps= is given twice")]
    StepsTwice,
    #[error("file= is followed by a path, as in file=once.clauses")]
    Path,
    #[error("file= is given twice")]
    FileTwice,
    #[error("the levels say how many steps there are, so steps= is left out")]
    StepsAndLevels,
    #[error("steps= is for a clause file, which needs file= too, as in file=once.clauses")]
    StepsAlone,
    #[error("a clause file is of the formula alone, so the levels are left out")]
    FileAndLevels,
    #[error("a clause file is for a number of steps, which steps= gives, as in steps=8")]
    FileAlone,
    #[error("the number of steps is written in digits alone, as in 8")]
    Second,
    #[error("tries= is followed by the most tries to make, as in tries=1000")]
    Tries,
    #[error("the most that tries= can allow is {}", MAX_TRIES)]
    Many,
    #[error("after steps and formula only tries= can follow, as in tries=1000")]
    Rest,
}

// The number that a text writes, or a fault of its own where it writes none.
pub fn number(text: &[u8], missing: Fault) -> Result<u32, Fault>
    ensures { IfErr result (λ fault. (fault ≡ Zero) ⊎ (fault ≡ missing)) }
{
    exercise_lines::number::decimal(text).map_err(|e| match e {
        NumberError::Zero => Fault::Zero,
        NumberError::Digits => missing,
    })
}
