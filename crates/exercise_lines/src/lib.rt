// What the lines of an exercise hold: where each ends; a number, a channel's levels.
#![tactic(auto)]

pub mod levels;
pub mod number;

ghost use Rattle.std.specs.Prelude.{◌-◌, ◌<◌, ◌≤◌, IfSome, length};

// The first n, or all where there are no more.
pub fn first(bytes: &[u8], n: usize) -> &[u8]
    ensures { length result.now ≤ n }
{
    &bytes[..n.min(bytes.len())]
}

// Where the first line ends, if a line feed ends it.
fn line_feed(input: &[u8]) -> Option<usize>
    ensures { IfSome result (λ n. n < length input.now) }
{
    input.iter().position(|b| *b == b'\n')
}

// The first line.
pub fn line(input: &[u8]) -> &[u8] {
    match line_feed(input) {
        Some(n) => &input[..n],
        None => input,
    }
}

// What follows the first line.
pub fn after_line(input: &[u8]) -> &[u8]
    ensures { length result.now ≤ length input.now - 1 }
{
    match line_feed(input) {
        Some(n) => &input[n + 1..],
        None => &[],
    }
}

// Whether the lines after the number of channels are a search's: these begin with the number of steps, and no formula begins with a digit.
pub fn is_search(lines: &[u8]) -> bool {
    lines.first().is_some_and(|b| formula_bytes::is_digit(*b))
}
