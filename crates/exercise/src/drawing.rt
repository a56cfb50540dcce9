// A recording, drawn as its strip.
use paper_grammar::MAX_CHANNELS;
use std::io;
use strip::LINE_BYTES;

// Room for the strip of any recording.
const STRIP: usize = (MAX_CHANNELS + 1) * LINE_BYTES;

// The strip of a recording of k steps, and a free line.
pub fn put_recording(rt: &impl Print, c: u32, k: u32, recording: &[u8]) -> io::Result<()> {
    let mut strip = [0u8; STRIP];
    if let Ok(n) = strip_calls::strip(c, k, recording, &mut strip) {
        rt.write_all(exercise_lines::first(&strip, n as usize))?;
    }
    if k == 0 {
        println!(rt; "(a recording without instants)")?;
    }
    println!(rt)
}
