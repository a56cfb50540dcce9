// A recording's strip for the lab notebook.
#![tactic(auto)]

ghost use Rattle.std.specs.Prelude.{◌≡◌, ◌+◌, ◌*◌, ◌≤◌, length, Err};
ghost use Rattle.std.proofs.lemmas.List.Edits.{sets};
ghost use Rattle.moments.specs.Moments.{over};
ghost use Rattle.refusal.specs.Asked.{asked, ok};
ghost use Rattle.interval.specs.Limits.{max_steps};
ghost use Rattle.paper_grammar.specs.Limits.{max_channels};
ghost use Rattle.strip.specs.Strip.{line_of, strip_of, line_bytes};
ghost use Rattle.strip.specs.Call.{recorded_questions, stripped};
ghost use Rattle.strip_lines.specs.Lines.{OfStrip};

use interval::Interval;
use refusal::Refusal;
use strip::{LINE_BYTES, Line};

// Line n of the strip: a part that starts in its middle, handed on to be written.
fn put_at(strip: &mut [u8], n: usize, recording: &[u8], line: Line)
    requires { ((n + 1) * line_bytes ≤ length strip.old) × (length recording.now ≤ max_steps) × OfStrip line }
    ensures { strip.new ≡ sets strip.old (n * line_bytes) (line_of (length recording.now) recording.now line) }
{
    let start = n * LINE_BYTES;
    let end = start + LINE_BYTES;
    strip_lines::put_line(&mut strip[start..end], recording, line);
}

// The ruler, then a line for each channel.
fn put_strip(strip: &mut [u8], recording: &[u8], channels: usize)
    requires { (channels ≤ max_channels) × (length recording.now ≤ max_steps) × ((channels + 1) * line_bytes ≤ length strip.old) }
    ensures { strip.new ≡ over (strip_of channels (length recording.now) recording.now) strip.old }
{
    put_at(strip, 0, recording, Line::Ruler);
    for channel in 0..channels {
        put_at(strip, channel + 1, recording, Line::Channel(channel));
    }
}

// Questions 1, 2, 10 and 11.
#[tactic(auto, using(interval::proofs::Gives::steps_yes, paper_grammar::proofs::Gives::channels_yes, paper_meaning::proofs::Recording::recording_length))]
fn ask_recorded(c: u32, k: u32, recording: &[u8]) -> Result<(), Refusal>
    ensures { result ≡ asked (recorded_questions c k recording.now) Err ok }
{
    formula_text::ask_channels(c)?;
    Interval::ask_steps(k as usize)?;
    recording_questions::ask_recording(k, recording)?;
    recording_questions::ask_bytes(c, recording)
}

// Writes the strip of a recording of k steps of C channels: questions 1, 2, 10, 11 and 18.
#[tactic(auto, using(crate::proofs::Call::refused_first, crate::proofs::Call::no_room, crate::proofs::Call::writable, crate::proofs::Call::answered))]
pub fn strip(c: u32, k: u32, recording: &[u8], strip: &mut [u8]) -> Result<u32, Refusal>
    ensures { record { answer = result; strip = strip.new } ≡ stripped c k recording.now strip.old }
{
    ask_recorded(c, k, recording)?;
    let bytes = (c as usize + 1) * LINE_BYTES;
    refusal::ask(18, bytes <= strip.len())?;
    put_strip(strip, recording, c as usize);
    Ok(bytes as u32)
}
