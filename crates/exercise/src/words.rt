// Why there is no answer, in a student's words.
use exercise_arguments::Fault;
use exercise_arguments::search::TRIES;
use file_line::MAX_LITERALS;
use interval::Interval;
use paper_grammar::{MAX_CHANNELS, MAX_LENGTH, MAX_NODES, MAX_NUMBER};
use refusal::Refusal;
use std::fmt::Display;
use std::{fmt, io};

// How the program is used.
fn put_usage(rt: &impl Print) -> io::Result<()> {
    let steps = Interval::MAX_STEPS;
    print!(rt;
        "\
usage:    ./exercise CHANNELS STEPS FORMULA [tries=LIMIT]
          ./exercise CHANNELS FORMULA [LETTER=LEVELS]..
          ./exercise CHANNELS FORMULA steps=STEPS file=PATH
example:  ./exercise 2 8 '(#a>=2;#b>=1)'
          ./exercise 2 '(#a>=2;[b])' a=0110 b=0011
          ./exercise 1 '#a>=1' steps=1 file=once.clauses

CHANNELS  how many channels there are, from 1 to {MAX_CHANNELS}
STEPS     how many instants there are, at most {steps}
FORMULA   without blanks, in single quotes:
            #S>=n               S is high at n instants or more
            [S]                 S is high at every instant, and there is one
            (P;Q)               first P, and then Q
            !P  (P&Q)  (P|Q)    not, and, or
            T  F                true, false
          P and Q are formulas; S is a letter, T, F, !S, (S&S) or (S|S)
LIMIT     how many tries may be made for the first recording: {TRIES} if it is not given
LEVELS    0 for low and 1 for high, one for each instant, at most {steps};
          a channel that is not given is low throughout
PATH      where to write the formula's clause file for so many instants
"
    )
}

// What is wrong with the arguments, and how to write them.
pub fn put_fault(rt: &impl Print, fault: Fault) -> io::Result<()> {
    println!(rt; "wrong arguments: {fault}\n")?;
    put_usage(rt)
}

// The formula, with `?` for what is no plain character, and a mark under a place.
fn put_marked(rt: &impl Print, text: &[u8], place: usize) -> io::Result<()> {
    for b in text {
        let plain = matches!(b, b' '..=b'~');
        rt.print(if plain { char::from(*b) } else { '?' })?;
    }
    let before = place.min(text.len());
    println!(rt; "\n{:before$}^", "")
}

// Question 4: why the formula does not read.
fn unread(text: &[u8], place: usize) -> &'static str {
    match text.get(place) {
        None => "the formula ends too early",
        Some(_) if place == 0 => "a formula cannot begin like this",
        Some(b' ') => "a formula has no blanks",
        Some(_) => "the formula cannot go on like this",
    }
}

// Why a formula of C channels is refused.
#[derive(Clone, Copy)]
struct Why<'a> {
    text: &'a [u8],
    c: u32,
    r: Refusal,
}

impl Display for Why<'_> {
    // By the question's number, since a refusal names no more: the paper, the reference and every engine count the questions alike.
    // Questions 9 to 11 cannot be answered with no here: the interval is the whole recording, which has as many bytes as steps, and no
    // channel beyond the first C is given.
    fn fmt<W: fmt::Write>(&self, f: &mut fmt::Formatter<W>) -> fmt::Result {
        let Why { text, c, r } = *self;
        let steps = Interval::MAX_STEPS;
        let place = r.place as usize;
        match r.number {
            1 => write!(f, "the number of channels is 1 to {MAX_CHANNELS}"),
            2 => write!(f, "the number of instants is at most {steps}"),
            3 => write!(
                f,
                "a formula has 1 character or more, and at most {MAX_LENGTH}"
            ),
            4 => write!(f, "{}", unread(text, place)),
            5 => {
                let letter = char::from(node_rows::byte_at(text, place));
                Fault::Outside { count: c, letter }.fmt(f)
            }
            6 => write!(f, "the number after >= is at most {MAX_NUMBER}"),
            7 => write!(f, "one part too many begins here: the most is {MAX_NODES}"),
            18 => write!(
                f,
                "the clause table has too many literals for a file: the most is {MAX_LITERALS}"
            ),
            _ => write!(
                f,
                "the recording does not fit the number of channels and of steps"
            ),
        }
    }
}

// That something is refused, why, and the question that is answered with no.
pub fn put_refused(rt: &impl Print, why: impl Display + Drop, r: Refusal) -> io::Result<()> {
    println!(rt; "refused: {why} (question {} at {})", r.number, r.place)
}

// Why a formula or a recording is refused, with a mark under the place where the question names one.
pub fn put_refusal(rt: &impl Print, text: &[u8], c: u32, r: Refusal) -> io::Result<()> {
    if matches!(r.number, 4..=7) {
        put_marked(rt, text, r.place as usize)?;
    }
    put_refused(rt, Why { text, c, r }, r)
}
