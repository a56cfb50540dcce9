// One exercise. It reads, one to a line, the number of channels, the number of steps and a formula; it draws the first recording that
// satisfies the formula. Given no steps, but after the formula a channel's levels as `a=0110`, it draws that recording and writes
// whether it satisfies the formula. Given `steps=8` and `file=` there, it writes the sizes of the formula's clause table, and a small
// table's clauses. Or it writes why there is no answer.
#![tactic(auto)]

mod clauses;
mod drawing;
mod first;
mod words;

use exercise_arguments::Fault;
use exercise_arguments::task::Task;
use exercise_lines::{after_line, line};
use interval::Interval;
use paper_grammar::MAX_CHANNELS;
use std::io;
use std::io::Read;

// So many bytes are read at most, and no good exercise has as many.
const INPUT: usize = 1024;

fn main(rt: HostRuntime) -> io::Result<()> {
    let mut input = [0u8; INPUT];
    let n = io::copy(
        &mut rt.stdin().take(INPUT as u64),
        &mut input.as_mut_slice(),
    )?;
    exercise(&rt, exercise_lines::first(&input, n as usize))
}

fn exercise(rt: &impl Print, input: &[u8]) -> io::Result<()> {
    match take_count(input) {
        Ok((c, lines)) => answer(rt, lines, c),
        Err(fault) => words::put_fault(rt, fault),
    }
}

// The number of channels, and the lines after it.
fn take_count(input: &[u8]) -> Result<(u32, &[u8]), Fault> {
    if input.len() == INPUT {
        return Err(Fault::Long);
    }
    let lines = after_line(input);
    if lines.is_empty() {
        return Err(Fault::Few);
    }
    let c = exercise_arguments::number(line(input), Fault::Count)?;
    Ok((c, lines))
}

// Question 1 first, as the channels are read by C; then the other lines; then the search, the evaluator or the table asks its questions
// in order.
fn answer(rt: &impl Print, lines: &[u8], c: u32) -> io::Result<()> {
    if let Err(r) = refusal::ask_within(1, c as usize, 1, MAX_CHANNELS) {
        return words::put_refusal(rt, lines, c, r);
    }
    if exercise_lines::is_search(lines) {
        return search_for(rt, lines, c);
    }
    work_on(rt, line(lines), c, after_line(lines))
}

// The steps, the formula, and perhaps a limit.
fn search_for(rt: &impl Print, lines: &[u8], c: u32) -> io::Result<()> {
    let text = line(after_line(lines));
    match exercise_arguments::search::take_search(lines) {
        Ok(sought) => first::put_first(rt, text, c, sought),
        Err(fault) => words::put_fault(rt, fault),
    }
}

// The lines after the formula.
fn work_on(rt: &impl Print, text: &[u8], c: u32, lines: &[u8]) -> io::Result<()> {
    let mut recording = [0u8; Interval::MAX_STEPS];
    match exercise_arguments::task::take_task(&mut recording, lines, c) {
        Ok(Task::Judge(steps)) => {
            let recording = exercise_lines::first(&recording, steps);
            put_verdict(rt, text, c, narrow(steps), recording)
        }
        Ok(Task::File(k)) => clauses::put_table(rt, text, c, k),
        Err(fault) => words::put_fault(rt, fault),
    }
}

// A number of steps: what is read has no more bytes.
fn narrow(n: usize) -> u32 {
    n.min(INPUT) as u32
}

fn put_verdict(rt: &impl Print, text: &[u8], c: u32, k: u32, recording: &[u8]) -> io::Result<()> {
    let answer = match truth_calls::evaluate(text, c, k, 0, k, recording) {
        Ok(true) => "yes: this recording satisfies ",
        Ok(false) => "no: this recording does not satisfy ",
        Err(r) => return words::put_refusal(rt, text, c, r),
    };
    drawing::put_recording(rt, c, k, recording)?;
    print!(rt; "{answer}")?;
    rt.write_all(text)?;
    println!(rt)
}
