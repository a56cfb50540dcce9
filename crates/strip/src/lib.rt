// Document 02's C-11, a strip for the lab notebook: its lines, for code and definitions. No function.
#![tactic(auto)]

use interval::Interval;

// The bytes of a line: a letter and a blank, a column for each of the most steps, a blank, three places of a count, a line feed.
pub const LINE_BYTES: usize = Interval::MAX_STEPS + 7;

// What a column shows of a channel that is high, and of one that is low.
pub const HIGH: u8 = b'#';

pub const LOW: u8 = b'_';

pub const BLANK: u8 = b' ';

// A line of the strip: the ruler, or that of a channel.
#[derive(Clone, Copy)]
pub enum Line {
    Ruler,
    Channel(usize),
}
