// The first recording that satisfies a formula, drawn, with the number of tries that it took.
use crate::{drawing, words};
use exercise_arguments::search::Sought;
use interval::Interval;
use paper_search::Answer;
use refusal::Refusal;
use std::io;

// Room for a clause table of so many literals, and for so many variables: a formula whose table has no more literals has no more of these.
const LITERALS: usize = 524288;

const VARIABLES: usize = 81920;

// The word for so many of a thing.
fn counted(n: u32, one: &'static str, more: &'static str) -> &'static str {
    if n == 1 { one } else { more }
}

// The formula, and how many tries the answer took.
fn put_taken(rt: &impl Print, text: &[u8], n: u32) -> io::Result<()> {
    rt.write_all(text)?;
    match n {
        0 => println!(rt; ", without a try"),
        _ => println!(rt; ", after {n} {}", counted(n, "try", "tries")),
    }
}

fn put_found(
    rt: &impl Print,
    text: &[u8],
    c: u32,
    k: u32,
    recording: &[u8],
    n: u32,
) -> io::Result<()> {
    drawing::put_recording(rt, c, k, exercise_lines::first(recording, k as usize))?;
    print!(rt; "found: this is the first recording that satisfies ")?;
    put_taken(rt, text, n)
}

fn put_none(rt: &impl Print, text: &[u8], k: u32, n: u32) -> io::Result<()> {
    print!(rt;
        "none: no recording of {k} {} satisfies ",
        counted(k, "step", "steps")
    )?;
    put_taken(rt, text, n)
}

fn put_spent(rt: &impl Print, limit: u32) -> io::Result<()> {
    let tries = counted(limit, "try", "tries");
    println!(rt; "spent: it takes more than {limit} {tries} to tell; tries= sets the limit")
}

// Why there is no search: question 18 is about the room above.
fn put_refusal(rt: &impl Print, text: &[u8], c: u32, r: Refusal) -> io::Result<()> {
    if r.number != 18 {
        return words::put_refusal(rt, text, c, r);
    }
    let why = format_args!(
        "the clause table is too large for this program, which has room for {LITERALS} literals; firmware can lend more"
    );
    words::put_refused(rt, why, r)
}

// The search, in that room.
fn find(text: &[u8], c: u32, k: u32, limit: u32, recording: &mut [u8]) -> Result<Answer, Refusal> {
    let mut variables = [0u32; LITERALS];
    let mut marks = [0u8; LITERALS];
    let mut values = [0u8; VARIABLES];
    let mut trail = [0u32; VARIABLES];
    search_calls::search(
        text,
        c,
        k,
        limit,
        &mut variables,
        &mut marks,
        &mut values,
        &mut trail,
        recording,
    )
}

// What the search answers.
pub fn put_first(rt: &impl Print, text: &[u8], c: u32, sought: Sought) -> io::Result<()> {
    let Sought { steps: k, limit } = sought;
    let mut recording = [0u8; Interval::MAX_STEPS];
    match find(text, c, k, limit, &mut recording) {
        Ok(Answer::Found(n)) => put_found(rt, text, c, k, &recording, n),
        Ok(Answer::None(n)) => put_none(rt, text, k, n),
        Ok(Answer::Spent(n)) => put_spent(rt, n),
        Err(r) => put_refusal(rt, text, c, r),
    }
}
