// Numbers of 32 bits as four bytes, low byte first, and what a file holds at which place.
#![tactic(auto)]

ghost use Rattle.std.specs.Prelude.{◌≡◌, ◌+◌, ◌*◌, ◌≤◌, length};
ghost use mathlib.Core.List.{flat_map};
ghost use Rattle.std.proofs.lemmas.List.Edits.{sets};
ghost use Rattle.file_numbers.specs.File.{bytes_of, file_length, number_at, sizes_at, variables_at, marks_at};
ghost use Rattle.file_numbers.specs.Held.{Held};

use table_layout::Sizes;

// The bytes of the five sizes, which come first.
pub const SIZES_BYTES: usize = 20;

// How many bytes the file of so many literals has.
pub fn file_length(literals: u32) -> usize
    ensures { result ≡ file_length literals }
{
    SIZES_BYTES + 5 * (literals as usize)
}

// Stores a number's four bytes.
fn put_number(file: &mut [u8], at: usize, n: u32)
    requires { at + 4 ≤ length file.old }
    ensures { file.new ≡ sets file.old at (bytes_of n) }
{
    table_literals::store(file, at, &n.to_le_bytes());
}

// Stores numbers one after another; the place after them.
pub fn put_numbers(file: &mut [u8], at: usize, more: &[u32]) -> usize
    requires { at + 4 * length more.now ≤ length file.old }
    ensures { (file.new ≡ sets file.old at (flat_map bytes_of more.now)) × (result ≡ at + 4 * length more.now) }
{
    let mut b = at;
    for &n in more {
        put_number(file, b, n);
        b += 4;
    }
    b
}

// Stores bytes from a place on. One by one: the library copies a slice of any length by memmove, which firmware need not have.
pub fn put_bytes(out: &mut [u8], at: usize, more: &[u8])
    requires { at + length more.now ≤ length out.old }
    ensures { out.new ≡ sets out.old at more.now }
{
    for e in 0..more.len() {
        out[at + e] = more[e];
    }
}

// The number at a place.
pub fn number_at(file: &[u8], at: usize) -> u32
    requires { at + 4 ≤ length file.now }
    ensures { result ≡ number_at file.now at }
{
    u32::from_le_bytes([file[at], file[at + 1], file[at + 2], file[at + 3]])
}

// The five sizes.
pub fn sizes_at(file: &[u8]) -> Sizes
    requires { 20 ≤ length file.now }
    ensures { result ≡ sizes_at file.now }
{
    Sizes {
        channels: number_at(file, 0),
        steps: number_at(file, 4),
        variables: number_at(file, 8),
        clauses: number_at(file, 12),
        literals: number_at(file, 16),
    }
}

// The marks.
pub fn marks_at(file: &[u8], s: Sizes) -> &[u8]
    requires { Held file.now s }
    ensures { result.now ≡ marks_at file.now }
{
    let from = SIZES_BYTES + 4 * (s.literals as usize);
    &file[from..]
}

// The variable numbers, stored from the first place on.
pub fn read_numbers(variables: &mut [u32], file: &[u8], s: Sizes)
    requires { Held file.now s × (s.literals ≤ length variables.old) }
    ensures { variables.new ≡ sets variables.old 0 (variables_at file.now) }
{
    for (e, v) in variables[..s.literals as usize].iter_mut().enumerate() {
        *v = number_at(file, SIZES_BYTES + 4 * e);
    }
}
