// A channel's levels, one character an instant, and its bit in a recording.
ghost use Rattle.std.specs.Prelude.{◌≡◌, ◌≤◌, length};
ghost use Rattle.exercise_lines.specs.Levels.{raised_by, Raised};

use paper_grammar::MAX_CHANNELS;

// A channel as a line like `a=0110` gives it: by its letter and by its number, with its levels.
#[derive(Clone, Copy, Debug)]
pub struct Channel<'a> {
    pub letter: char,
    pub number: usize,
    pub levels: &'a [u8],
}

// The channel that such a line names.
pub fn named(line: &[u8]) -> Option<Channel<'_>> {
    match line {
        [letter @ b'a'..=b'z', b'=', levels @ ..] => Some(Channel {
            letter: char::from(*letter),
            number: usize::from(*letter - b'a'),
            levels,
        }),
        _ => None,
    }
}

// The bit of a channel in a recording's bytes.
pub fn bit(channel: usize) -> u8 {
    1 << (channel % MAX_CHANNELS)
}

// Whether each is 0 or 1.
pub fn are_levels(levels: &[u8]) -> bool {
    levels.iter().all(|level| matches!(level, b'0' | b'1'))
}

// A byte of the recording, with a bit set where the level is 1.
#[tactic(auto, unfolding(crate::specs::Levels::raised_by))]
fn raised(byte: u8, level: u8, bit: u8) -> u8
    ensures { result ≡ raised_by bit level byte }
{
    if level == b'1' { byte | bit } else { byte }
}

// Sets a channel's bit at each instant that its levels have high.
pub fn raise(recording: &mut [u8], levels: &[u8], bit: u8)
    requires { length levels.now ≤ length recording.old }
    ensures { Raised bit levels.now recording.old recording.new }
{
    // By index: what is written through a zip of `iter_mut` no proof knows afterwards, so `Raised` would not follow.
    for (t, level) in levels.iter().enumerate() {
        recording[t] = raised(recording[t], *level, bit);
    }
}
