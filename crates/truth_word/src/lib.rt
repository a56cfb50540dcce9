// A state assertion's truth at the instants of a recording as one word, instant t in bit t, so that a duration is a count of ones.
#![tactic(auto)]

ghost use Rattle.std.specs.Prelude.{◌≡◌, Bool, not, ℕ, ◌-◌, ◌^◌, ◌≤◌, ◌<◌, length};
ghost use Rattle.std.specs.Bool.{MatchBool};
ghost use Rattle.interval.specs.Limits.{max_steps};
ghost use Rattle.paper_grammar.specs.Limits.{max_channels};
ghost use Rattle.paper_meaning.specs.Meaning.{bit, bit_at, channel_at, highs};
ghost use Rattle.paper_meaning.specs.Words.{WordOf};
ghost use Rattle.truth_word.specs.Word.{Lows, joined};

use interval::Interval;
use std::ops::{BitAnd, BitOr};

// A word's bits. The contracts are over the most steps, so that these must fit.
pub const WIDTH: usize = 32;

// The instants before n, with no wider word: none is shifted by the whole width.
fn low(n: usize) -> u32
    requires { n ≤ max_steps }
    ensures { result ≡ 2 ^ n - 1 }
{
    if n == 0 { 0 } else { u32::MAX >> (WIDTH - n) }
}

// The instants before each n, so that a window costs no shift.
pub fn lows() -> [u32; Interval::MAX_ENDS]
    ensures { Lows result }
{
    std::array::from_fn(low)
}

// The instants i to j - 1.
fn window(lows: &[u32; Interval::MAX_ENDS], i: usize, j: usize) -> u32
    requires { (i ≤ j) × (j ≤ max_steps) × Lows lows.now }
    ensures { result ≡ 2 ^ j - 2 ^ i }
{
    lows[j] - lows[i]
}

// How many of the instants i to j - 1 are high.
pub fn count_high(lows: &[u32; Interval::MAX_ENDS], word: u32, i: usize, j: usize) -> u32
    requires { (i ≤ j) × (j ≤ max_steps) × Lows lows.now }
    ensures { (result ≡ highs (bit_at word) i (j - i)) × (result ≤ j - i) }
{
    u32::count_ones(word & window(lows, i, j))
}

// 1 where bit c of a byte is.
pub fn bit_of(byte: u8, c: usize) -> u8
    requires { c < max_channels }
    ensures { result ≡ bit (bit_at byte c) }
{
    (byte >> c) % 2
}

// Bit c of each of k bytes as one word: a letter's, by its channel, from a recording; by bit 0 that of truths kept as bytes, 0 or 1.
pub fn word_of(bytes: &[u8], c: usize, k: usize) -> u32
    requires { (k ≤ length bytes.now) × (k ≤ max_steps) × (c < max_channels) }
    ensures { WordOf k (channel_at bytes.now c) result }
{
    let mut word: u32 = 0;
    for (t, byte) in bytes[..k].iter().enumerate() {
        word += u32::from(bit_of(*byte, c)) << t;
    }
    word
}

// The word of `T`, where `up`, or of `F`.
pub fn constant_word(up: bool) -> u32
    ensures { (k : ℕ) → k ≤ max_steps → WordOf k (λ t. up) result }
{
    if up { u32::MAX } else { 0 }
}

// The word of `!`, from that of its part.
pub fn inverse_word(a: u32) -> u32
    ensures { (k : ℕ) (f : ℕ → Bool) → k ≤ max_steps → WordOf k f a → WordOf k (λ t. not (f t)) result }
{
    a ^ u32::MAX
}

// What `&`, where `both`, or `|` makes of two numbers, bit by bit.
pub fn joined<T: BitAnd<Output = T> + BitOr<Output = T>>(both: bool, a: T, b: T) -> T
    requires { T.can_bitand a b × T.can_bitor a b }
    ensures { MatchBool both (T.bitand_gives a b result) (T.bitor_gives a b result) }
{
    if both { a & b } else { a | b }
}

// The word of `&`, where `both`, or of `|`, from those of its parts.
pub fn joined_word(both: bool, a: u32, b: u32) -> u32
    ensures { (k : ℕ) (f g : ℕ → Bool) → WordOf k f a → WordOf k g b → WordOf k (λ t. joined both (f t) (g t)) result }
{
    joined(both, a, b)
}
