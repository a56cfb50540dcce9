// The clause file: a table in memory to bytes, and bytes to a table in memory.
#![tactic(auto)]

ghost use Rattle.std.specs.Prelude.{◌≡◌, ◌≤◌, length};
ghost use Rattle.std.proofs.lemmas.List.Edits.{sets};
ghost use Rattle.table_calls.specs.Table.{five_of};
ghost use Rattle.table_calls.specs.Left.{left};
ghost use Rattle.file_numbers.specs.File.{file_of};
ghost use Rattle.file_calls.specs.Calls.{file_written, file_read};

use refusal::Refusal;
use table_layout::Sizes;

// The bytes of a file, from the first place on.
fn put_file(file: &mut [u8], s: Sizes, variables: &[u32], marks: &[u8])
    requires { length (file_of (five_of s) variables.now marks.now) ≤ length file.old }
    ensures { file.new ≡ sets file.old 0 (file_of (five_of s) variables.now marks.now) }
{
    let sizes = [s.channels, s.steps, s.variables, s.clauses, s.literals];
    let at = file_numbers::put_numbers(file, 0, &sizes);
    let end = file_numbers::put_numbers(file, at, variables);
    file_numbers::put_bytes(file, end, marks);
}

// Writes a table's file: questions 15 to 18.
#[tactic(auto, using(crate::proofs::Calls::write_refused, crate::proofs::Calls::write_short, crate::proofs::Calls::write_room, crate::proofs::Calls::write_done))]
pub fn write(s: Sizes, variables: &[u32], marks: &[u8], file: &mut [u8]) -> Result<(), Refusal>
    ensures { record { answer = result; file = file.new } ≡ file_written s variables.now marks.now file.old }
{
    file_questions::ask_arrays(s, variables, marks)?;
    file_questions::ask_bytes(s.literals, file.len())?;
    put_file(file, s, variables, marks);
    Ok(())
}

// Reads a file into a table: questions 15 to 18.
#[tactic(auto, using(crate::proofs::Calls::read_refused, crate::proofs::Calls::read_short))]
pub fn read(
    file: &[u8],
    sizes: &mut [u32],
    variables: &mut [u32],
    marks: &mut [u8],
) -> Result<(), Refusal>
    ensures { left result sizes variables marks ≡ file_read file.now sizes.old variables.old marks.old }
{
    file_questions::ask_file(file)?;
    let s = file_numbers::sizes_at(file);
    table_calls::ask_room(s.literals, sizes.len(), variables.len(), marks.len())?;
    table_calls::put_sizes(sizes, s);
    file_numbers::read_numbers(variables, file, s);
    file_numbers::put_bytes(marks, 0, file_numbers::marks_at(file, s));
    Ok(())
}
