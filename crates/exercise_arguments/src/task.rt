// What the lines after a formula set as a task: a recording to be judged, or a clause file to be written.
use crate::Fault;
use exercise_lines::levels;
use exercise_lines::levels::Channel;

// What the lines so far say: a bit for each channel that is given, and how many levels each has; the steps; whether there is a path.
#[derive(Clone, Copy, Default)]
struct Given {
    channels: u8,
    levels: usize,
    steps: Option<u32>,
    file: bool,
}

// What is to be done: a recording of so many steps judged, or the clause file of so many written.
#[derive(Clone, Copy, Debug, PartialEq, Eq)]
pub enum Task {
    Judge(usize),
    File(u32),
}

// One channel more, of the first C.
fn with_channel(given: Given, channel: Channel<'_>, c: u32) -> Result<Given, Fault> {
    let letter = channel.letter;
    if channel.number >= c as usize {
        return Err(Fault::Outside { count: c, letter });
    }
    let bit = levels::bit(channel.number);
    if given.channels & bit != 0 {
        return Err(Fault::Twice(letter));
    }
    let levels = channel.levels.len();
    if given.channels != 0 && levels != given.levels {
        return Err(Fault::Uneven(letter));
    }
    Ok(Given {
        channels: given.channels | bit,
        levels,
        ..given
    })
}

// Reads a line like `a=0110` into the recording, as many levels as it has instants; it is of no use after a fault.
fn take_channel(recording: &mut [u8], line: &[u8], c: u32, given: Given) -> Result<Given, Fault> {
    let channel = levels::named(line).ok_or(Fault::Form)?;
    if !levels::are_levels(channel.levels) {
        return Err(Fault::Level(channel.letter));
    }
    let read = exercise_lines::first(channel.levels, recording.len());
    levels::raise(recording, read, levels::bit(channel.number));
    with_channel(given, channel, c)
}

// The number after steps=.
fn with_steps(given: Given, text: &[u8]) -> Result<Given, Fault> {
    if given.steps.is_some() {
        return Err(Fault::StepsTwice);
    }
    let steps = crate::number(text, Fault::Steps)?;
    Ok(Given {
        steps: Some(steps),
        ..given
    })
}

// The path after file=.
fn with_file(given: Given, path: &[u8]) -> Result<Given, Fault> {
    if given.file {
        return Err(Fault::FileTwice);
    }
    if path.is_empty() {
        return Err(Fault::Path);
    }
    Ok(Given {
        file: true,
        ..given
    })
}

fn take_line(recording: &mut [u8], line: &[u8], c: u32, given: Given) -> Result<Given, Fault> {
    if let Some(text) = line.strip_prefix(b"steps=") {
        return with_steps(given, text);
    }
    if let Some(path) = line.strip_prefix(b"file=") {
        return with_file(given, path);
    }
    take_channel(recording, line, c, given)
}

// What all lines ask for. A recording has its steps by its levels; a file has its steps and no levels.
fn task_of(given: Given) -> Result<Task, Fault> {
    let has_levels = given.channels != 0;
    match (has_levels, given.steps, given.file) {
        (true, _, true) => Err(Fault::FileAndLevels),
        (true, Some(_), false) => Err(Fault::StepsAndLevels),
        (true, None, false) => Ok(Task::Judge(given.levels)),
        (false, Some(k), true) => Ok(Task::File(k)),
        (false, Some(_), false) => Err(Fault::StepsAlone),
        (false, None, true) => Err(Fault::FileAlone),
        (false, None, false) => Ok(Task::Judge(0)),
    }
}

// Reads all lines so, the levels into the recording.
fn take_lines(recording: &mut [u8], input: &[u8], c: u32) -> Result<Given, Fault> {
    let mut given = Given::default();
    for ended in input.split_inclusive(|b| *b == b'\n') {
        given = take_line(recording, exercise_lines::line(ended), c, given)?;
    }
    Ok(given)
}

// The task that the lines after the formula set, with the recording.
pub fn take_task(recording: &mut [u8], input: &[u8], c: u32) -> Result<Task, Fault> {
    task_of(take_lines(recording, input, c)?)
}
