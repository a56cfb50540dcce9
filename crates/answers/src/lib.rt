// The numbers of answers for C, as include/tuvenikar.h names them, and answers packed into one number; a refusal goes by its question's
// number, 1 to 18. That an answer's number tells the answer is in proofs/.
#![tactic(auto)]

ghost use Rattle.std.specs.Prelude.{◌≡◌};
ghost use Rattle.answers.specs.Answers.{packed, pack_refusal, pack_verdict, pack_located, pack_written, pack_printed, pack_checked, pack_answer};

use node_calls::Span;
use paper_search::Answer;
use refusal::Refusal;

// Evaluation: the formula does not hold; it holds.
pub const TUV_NO: u32 = 64;

pub const TUV_YES: u32 = 65;

// A table, a file, an assignment or a strip is written, or a file read.
pub const TUV_WRITTEN: u32 = 66;

// A proposed assignment meets every clause.
pub const TUV_ACCEPTED: u32 = 67;

// The search: a recording is found, there is none, the limit is spent.
pub const TUV_FOUND: u32 = 68;

pub const TUV_NONE: u32 = 69;

pub const TUV_SPENT: u32 = 70;

// Where a node's own text is.
pub const TUV_NODE_TEXT: u32 = 71;

// What, and the place or the value above it.
fn pack(code: u32, value: u32) -> u64
    ensures { result ≡ packed code value }
{
    code as u64 + 4294967296 * (value as u64)
}

// A refusal's number and place.
fn pack_refusal(a: Refusal) -> u64
    ensures { result ≡ pack_refusal a }
{
    pack(a.number, a.place)
}

// A node's first byte and length as one value, or the refusal.
#[tactic(auto, unfolding(crate::specs::Answers::pack_located))]
pub fn pack_located(a: Result<Span, Refusal>) -> u64
    ensures { result ≡ pack_located a }
{
    match a {
        Ok(span) => pack(
            TUV_NODE_TEXT,
            u32::from(span.first) + 256 * u32::from(span.length),
        ),
        Err(r) => pack_refusal(r),
    }
}

// No or yes, or the refusal.
#[tactic(auto, unfolding(crate::specs::Answers::pack_verdict))]
pub fn pack_verdict(a: Result<bool, Refusal>) -> u64
    ensures { result ≡ pack_verdict a }
{
    match a {
        Ok(false) => pack(TUV_NO, 0),
        Ok(true) => pack(TUV_YES, 0),
        Err(r) => pack_refusal(r),
    }
}

// Written, or the refusal.
#[tactic(auto, unfolding(crate::specs::Answers::pack_written))]
pub fn pack_written(a: Result<(), Refusal>) -> u64
    ensures { result ≡ pack_written a }
{
    match a {
        Ok(()) => pack(TUV_WRITTEN, 0),
        Err(r) => pack_refusal(r),
    }
}

// Written with the number of bytes, or the refusal.
#[tactic(auto, unfolding(crate::specs::Answers::pack_printed))]
pub fn pack_printed(a: Result<u32, Refusal>) -> u64
    ensures { result ≡ pack_printed a }
{
    match a {
        Ok(n) => pack(TUV_WRITTEN, n),
        Err(r) => pack_refusal(r),
    }
}

// Accepted, or the refusal.
#[tactic(auto, unfolding(crate::specs::Answers::pack_checked))]
pub fn pack_checked(a: Result<(), Refusal>) -> u64
    ensures { result ≡ pack_checked a }
{
    match a {
        Ok(()) => pack(TUV_ACCEPTED, 0),
        Err(r) => pack_refusal(r),
    }
}

// Found, none or spent with the count, or the refusal.
#[tactic(auto, unfolding(crate::specs::Answers::pack_answer))]
pub fn pack_answer(a: Result<Answer, Refusal>) -> u64
    ensures { result ≡ pack_answer a }
{
    match a {
        Ok(Answer::Found(n)) => pack(TUV_FOUND, n),
        Ok(Answer::None(n)) => pack(TUV_NONE, n),
        Ok(Answer::Spent(n)) => pack(TUV_SPENT, n),
        Err(r) => pack_refusal(r),
    }
}
