// The flat node table of a text: what each node is, its size, and where its text is.
#![tactic(auto)]

ghost use Rattle.std.specs.Prelude.{◌≡◌, [], map, ℕ, ◌+◌, ◌-◌, ◌≤◌, ◌<◌, eqb, length, get_or};
ghost use Rattle.refusal.specs.Asked.{ok};
ghost use Rattle.paper_grammar.specs.Limits.{max_nodes};
ghost use Rattle.paper_grammar.specs.Nodes.{nodes_in};
ghost use Rattle.paper_grammar.specs.Questions.{accept_of};
ghost use Rattle.node_rows.specs.Table.{constant_code, heading, row_of, table_of};
ghost use Rattle.node_rows.specs.Rows.{code_after, begun, link_of, digits_of, part_at, row_from, row_at};

use paper_grammar::{Lead, MAX_NODES, Sort};

// What a node can be, by number; a formula's is FORMULA more.
pub const FALSE: u8 = 0;

pub const TRUE: u8 = 1;

pub const NOT: u8 = 2;

pub const AND: u8 = 3;

pub const OR: u8 = 4;

pub const CHOP: u8 = 5;

pub const LETTER: u8 = 6;

pub const DURATION: u8 = 7;

pub const THROUGHOUT: u8 = 8;

pub const STATE: u8 = 0;

pub const FORMULA: u8 = 16;

// These two stand in formulas only.
pub const FORMULA_DURATION: u8 = FORMULA + DURATION;

pub const FORMULA_THROUGHOUT: u8 = FORMULA + THROUGHOUT;

// What a node is: its kind, which is one of these, and its number (a letter's channel, a duration's n).
#[derive(Clone, Copy)]
pub struct Head {
    pub kind: u8,
    pub number: u8,
}

// A node: what it is, how many nodes it has, its first byte and how many bytes.
#[derive(Clone, Copy)]
pub struct Row {
    pub head: Head,
    pub size: usize,
    pub first: usize,
    pub length: usize,
}

// A part of a node: how many nodes it has, and how many bytes.
#[derive(Clone, Copy)]
pub struct Part {
    pub size: usize,
    pub length: usize,
}

// The nodes in number order, an array for each field.
#[derive(Clone, Copy)]
pub struct NodeTable {
    pub count: usize,
    pub kinds: [u8; MAX_NODES],
    pub numbers: [u8; MAX_NODES],
    pub sizes: [u8; MAX_NODES],
    pub firsts: [u8; MAX_NODES],
    pub lengths: [u8; MAX_NODES],
}

// The byte at a place, and 0 past the end.
pub fn byte_at(text: &[u8], at: usize) -> u8
    ensures { result ≡ get_or text.now at 0 }
{
    text.get(at).copied().unwrap_or(0)
}

// No rows.
pub fn empty_table() -> NodeTable
    ensures { result ≡ table_of [] }
{
    let none = [0; MAX_NODES];
    NodeTable {
        count: 0,
        kinds: none,
        numbers: none,
        sizes: none,
        firsts: none,
        lengths: none,
    }
}

// The number of the sort of what stands after a byte.
fn code_after(code: u8, b: u8) -> u8
    ensures { result ≡ code_after code b }
{
    match b {
        b'#' | b'[' => STATE,
        b'>' | b']' => FORMULA,
        _ => code,
    }
}

// The rows of an accepted text before their parts are known: a loop over its bytes, a row at each first byte.
fn begun_rows(text: &[u8]) -> NodeTable
    requires { (C : ℕ) × (k : ℕ) × (accept_of C k text.now ≡ ok) }
    ensures { result ≡ table_of (map begun (nodes_in text.now)) }
{
    let mut table = empty_table();
    let mut code = FORMULA;
    for (i, &b) in text.iter().enumerate() {
        let own = code;
        code = code_after(own, b);
        if formula_bytes::is_start(b) {
            let x = table.count;
            table.kinds[x] = own;
            table.firsts[x] = i as u8;
            table.count = x + 1;
        }
    }
    table
}

// Which constant `T` or `F` is.
fn constant_code(b: u8) -> u8
    ensures { (result ≡ constant_code (eqb b 84)) × (result ≤ 1) }
{
    if b == b'T' { TRUE } else { FALSE }
}

// What joins the parts of a node: the byte after its first part tells.
fn link_of(b: u8) -> u8
    ensures { (result ≡ link_of b) × (result ≤ 5) }
{
    match b {
        b'&' => AND,
        b'|' => OR,
        b';' => CHOP,
        _ => 0,
    }
}

// The channel of a letter.
fn channel_of(b: u8) -> u8
    ensures { result ≡ b - 97 }
{
    b.saturating_sub(b'a')
}

// How many digits a number within the limit has.
fn digits_of(n: usize) -> usize
    ensures { (result ≡ digits_of n) × (result ≤ 2) }
{
    if n < 10 { 1 } else { 2 }
}

// The part at a row: no nodes past the table.
fn part_at<'a>(sizes: &'a [u8; MAX_NODES], lengths: &'a [u8; MAX_NODES], x: usize) -> Part
    ensures { (result ≡ part_at sizes.now lengths.now x) × (result.size ≤ 255) × (result.length ≤ 255) }
{
    Part {
        size: usize::from(byte_at(sizes, x)),
        length: usize::from(byte_at(lengths, x)),
    }
}

// A row, from what it says.
fn row_of(kind: u8, number: u8, size: usize, first: usize, length: usize) -> Row
    ensures { result ≡ record { head = heading kind number; size = size; first = first; length = length } }
{
    Row {
        head: Head { kind, number },
        size,
        first,
        length,
    }
}

// The row of the node that the byte b begins at a place, p and q its parts. A letter begins no formula.
fn row_from(text: &[u8], b: u8, code: u8, at: usize, p: Part, q: Part) -> Row
    requires { (code ≤ 16) × (at ≤ 255) × (p.size ≤ 255) × (p.length ≤ 255) × (q.size ≤ 255) × (q.length ≤ 255) }
    ensures { result ≡ row_from text.now b code at p q }
{
    let size = 1 + p.size;
    let length = 1 + p.length;
    let end = at + length;
    let l = formula_bytes::lead_of(Sort::Formula, b);
    match l {
        Lead::Leaf => row_of(code + constant_code(b), 0, 1, at, 1),
        Lead::Not => row_of(code + NOT, 0, size, at, length),
        Lead::Open => {
            let kind = code + link_of(byte_at(text, end));
            row_of(kind, 0, size + q.size, at, length + q.length + 2)
        }
        Lead::Measure => {
            let n = formula_scan::number_at(text, end + 2);
            row_of(
                FORMULA_DURATION,
                n as u8,
                size,
                at,
                length + 2 + digits_of(n),
            )
        }
        Lead::Enter => row_of(FORMULA_THROUGHOUT, 0, size, at, length + 1),
        Lead::Other => row_of(LETTER, channel_of(b), 1, at, 1),
    }
}

// The row x, from the rows of its parts: the first part's is the next, the second part's comes after all of the first's.
fn row_at<'a>(
    text: &[u8],
    kinds: &'a [u8; MAX_NODES],
    sizes: &'a [u8; MAX_NODES],
    firsts: &'a [u8; MAX_NODES],
    lengths: &'a [u8; MAX_NODES],
    x: usize,
) -> Row
    requires { (x < max_nodes) × (get_or kinds.now x 0 ≤ 16) }
    ensures { result ≡ row_at text.now kinds.now sizes.now firsts.now lengths.now x }
{
    let at = usize::from(byte_at(firsts, x));
    let p = part_at(sizes, lengths, x + 1);
    let q = part_at(sizes, lengths, x + 1 + p.size);
    row_from(text, byte_at(text, at), byte_at(kinds, x), at, p, q)
}

// The rows of an accepted text: a loop over its nodes, the last first, so that each comes after its parts.
pub fn rows_of(text: &[u8]) -> NodeTable
    requires { (C : ℕ) × (k : ℕ) × (accept_of C k text.now ≡ ok) }
    ensures { result ≡ table_of (map row_of (nodes_in text.now)) }
{
    let mut table = begun_rows(text);
    for x in (0..table.count).rev() {
        let row = row_at(
            text,
            &table.kinds,
            &table.sizes,
            &table.firsts,
            &table.lengths,
            x,
        );
        let h = row.head;
        table.kinds[x] = h.kind;
        table.numbers[x] = h.number;
        table.sizes[x] = row.size as u8;
        table.lengths[x] = row.length as u8;
    }
    table
}
