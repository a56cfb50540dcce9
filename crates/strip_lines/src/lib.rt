// A line of a recording's strip, written to the part of the strip that is its own.
#![tactic(auto)]

ghost use Rattle.std.specs.Prelude.{◌≡◌, cond, ◌+◌, ◌/◌, ◌%◌, ◌≤◌, ◌<◌, ltb, length};
ghost use Rattle.lists.specs.Listing.{tab};
ghost use Rattle.interval.specs.Limits.{max_steps};
ghost use Rattle.paper_grammar.specs.Limits.{max_channels};
ghost use Rattle.paper_meaning.specs.Meaning.{bit_at, channel_at, highs};
ghost use Rattle.strip.specs.Strip.{blank, high, low, letter_of, column_of, aligned, count_of, line_of, line_bytes};
ghost use Rattle.strip_lines.specs.Lines.{OfStrip};

use interval::Interval;
use strip::{BLANK, HIGH, LOW, Line};

// The digit of a number's hundreds or tens; a blank where it has none.
fn digit(n: u32, weight: u32) -> u8
    requires { 0 < weight }
    ensures { result ≡ cond (ltb n weight) blank (48 + n / weight % 10) }
{
    if n >= weight {
        return b'0' + (n / weight % 10) as u8;
    }
    BLANK
}

// A number, right-aligned in three places with blanks.
fn align(n: u32) -> [u8; 3]
    requires { n < 1000 }
    ensures { result ≡ aligned n }
{
    [digit(n, 100), digit(n, 10), b'0' + (n % 10) as u8]
}

// How many instants are high on a channel.
fn count(recording: &[u8], channel: usize) -> u32
    requires { (length recording.now ≤ max_steps) × (channel < max_channels) }
    ensures { (result ≡ highs (channel_at recording.now channel) 0 (length recording.now)) × (result ≤ max_steps) }
{
    let k = recording.len();
    let word = truth_word::word_of(recording, channel, k);
    let lows = truth_word::lows();
    truth_word::count_high(&lows, word, 0, k)
}

// A channel's count; blanks at the ruler's end.
fn count_of(recording: &[u8], line: Line) -> [u8; 3]
    requires { (length recording.now ≤ max_steps) × OfStrip line }
    ensures { result ≡ count_of (length recording.now) recording.now line }
{
    match line {
        Line::Ruler => [BLANK; 3],
        Line::Channel(channel) => align(count(recording, channel)),
    }
}

// A line's first byte.
fn letter_of(line: Line) -> u8
    requires { OfStrip line }
    ensures { result ≡ letter_of line }
{
    match line {
        Line::Ruler => BLANK,
        Line::Channel(channel) => b'a' + channel as u8,
    }
}

// What a byte of the recording shows of a channel.
fn level(byte: u8, channel: usize) -> u8
    requires { channel < max_channels }
    ensures { result ≡ cond (bit_at byte channel) high low }
{
    if truth_word::bit_of(byte, channel) == 1 {
        return HIGH;
    }
    LOW
}

// What column t shows; from the recording's end on a blank.
fn column(recording: &[u8], line: Line, t: usize) -> u8
    requires { OfStrip line }
    ensures { result ≡ column_of (length recording.now) recording.now line t }
{
    if t >= recording.len() {
        return BLANK;
    }
    match line {
        Line::Ruler => b'0' + (t % 10) as u8,
        Line::Channel(channel) => level(recording[t], channel),
    }
}

// The columns of a line, to all of their part.
fn put_columns(columns: &mut [u8], recording: &[u8], line: Line)
    requires { OfStrip line }
    ensures { columns.new ≡ tab (length columns.old) (column_of (length recording.now) recording.now line) }
{
    for (t, byte) in columns.iter_mut().enumerate() {
        *byte = column(recording, line, t);
    }
}

// A line, to all of its part: what stands around the columns, then these.
pub fn put_line(part: &mut [u8], recording: &[u8], line: Line)
    requires { (length part.old ≡ line_bytes) × (length recording.now ≤ max_steps) × OfStrip line }
    ensures { part.new ≡ line_of (length recording.now) recording.now line }
{
    let count = count_of(recording, line);
    let end = 2 + Interval::MAX_STEPS;
    part[0] = letter_of(line);
    part[1] = BLANK;
    part[end] = BLANK;
    part[end + 1] = count[0];
    part[end + 2] = count[1];
    part[end + 3] = count[2];
    part[end + 4] = b'\n';
    put_columns(&mut part[2..end], recording, line);
}
