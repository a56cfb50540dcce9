// What the file program does: it reads a line of C, k and the text of a formula, and writes the formula's clause file.
#![tactic(auto)]

mod parts;

ghost use Rattle.std.specs.Prelude.{◌≡◌, ◌≤◌, length, get_or};
ghost use Rattle.moments.specs.Moments.{over};
ghost use Rattle.file_numbers.specs.File.{file_length};
ghost use Rattle.file_line.specs.Line.{line};
ghost use Rattle.file_line.specs.Output.{output_for, output_of, max_input};
ghost use Rattle.file_line.specs.Parts.{file_put};

use file_numbers::SIZES_BYTES;
use table_layout::Sizes;

// The arrays hold so many literals, and the file of so many.
pub const MAX_LITERALS: usize = 8192;

pub const FILE_BYTES: usize = SIZES_BYTES + 5 * MAX_LITERALS;

// So many bytes of an input are read; what stands beyond changes nothing.
pub const MAX_INPUT: usize = 512;

// Room for an input.
pub fn room_for_input() -> [u8; MAX_INPUT]
    ensures { length result ≡ max_input }
{
    [0; MAX_INPUT]
}

// The file of a table, by its five sizes and the first L places of its arrays.
fn put_file(five: [u32; 5], variables: &[u32], marks: &[u8], file: &mut [u8]) -> usize
    requires { (get_or five 4 0 ≤ length variables.now) × (get_or five 4 0 ≤ length marks.now) }
    ensures { (result ≡ file_length (get_or five 4 0)) × (file.new ≡ (file_put five variables.now marks.now file.old).file) }
{
    let n = five[4] as usize;
    let s = Sizes {
        channels: five[0],
        steps: five[1],
        variables: five[2],
        clauses: five[3],
        literals: five[4],
    };
    let _ = file_calls::write(s, &variables[..n], &marks[..n], file);
    file_numbers::file_length(five[4])
}

// The file of a text's table: how many bytes were written.
fn file_of_text(text: &[u8], c: u32, k: u32, file: &mut [u8; FILE_BYTES]) -> usize
    ensures { (result ≡ length (output_for (line c k text.now))) × (file.new ≡ over (output_for (line c k text.now)) file.old) }
{
    let mut five = [0u32; 5];
    let mut variables = [0u32; MAX_LITERALS];
    let mut marks = [0u8; MAX_LITERALS];
    match table_calls::table(text, c, k, &mut five, &mut variables, &mut marks) {
        Ok(()) => put_file(five, &variables, &marks, file),
        Err(_) => 0,
    }
}

// What the file program writes, given an input: how many bytes.
pub fn file_of_input(input: &[u8], file: &mut [u8; FILE_BYTES]) -> usize
    ensures { (result ≡ length (output_of input.now)) × (file.new ≡ over (output_of input.now) file.old) × (result ≤ length file.new) }
{
    let Some(p) = parts::read_line(input) else {
        return 0;
    };
    file_of_text(&input[p.first..p.end], p.c, p.k, file)
}
