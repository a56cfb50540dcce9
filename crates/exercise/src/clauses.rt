// A formula's clause table: its sizes, and the clauses of a small one.
ghost use Rattle.std.specs.Prelude.{◌≤◌, length, get_or};

use crate::words;
use file_line::MAX_LITERALS;
use std::io;

// Of a table of more clauses only the sizes are shown.
const MAX_SHOWN: u32 = 64;

fn put_sizes(rt: &impl Print, sizes: [u32; 5]) -> io::Result<()> {
    let [c, k, variables, clauses, literals] = sizes;
    println!(rt;
        "channels {c}, steps {k}, variables {variables}, clauses {clauses}, literals {literals}"
    )
}

// A line for each clause, counted from 1 in two places.
fn put_clauses(rt: &impl Print, variables: &[u32], marks: &[u8]) -> io::Result<()> {
    let mut clause = 0usize;
    let mut starts = true;
    for (variable, mark) in variables.iter().zip(marks) {
        if starts {
            clause += 1;
            print!(rt; "{clause:2}  (")?;
        } else {
            print!(rt; " ")?;
        }
        let sign = if mark % 2 == 0 { "-" } else { "" };
        print!(rt; "{sign}{variable}")?;
        starts = *mark >= 2;
        if starts {
            println!(rt; ")")?;
        }
    }
    Ok(())
}

fn put_written(rt: &impl Print, sizes: [u32; 5], variables: &[u32], marks: &[u8]) -> io::Result<()>
    requires { (get_or sizes 4 0 ≤ length variables.now) × (get_or sizes 4 0 ≤ length marks.now) }
{
    put_sizes(rt, sizes)?;
    if sizes[3] <= MAX_SHOWN {
        let n = sizes[4] as usize;
        println!(rt)?;
        put_clauses(rt, &variables[..n], &marks[..n])?;
    }
    Ok(())
}

// Sizes and clauses, or why the table is refused.
pub fn put_table(rt: &impl Print, text: &[u8], c: u32, k: u32) -> io::Result<()> {
    let mut sizes = [0u32; 5];
    let mut variables = [0u32; MAX_LITERALS];
    let mut marks = [0u8; MAX_LITERALS];
    let written = table_calls::table(text, c, k, &mut sizes, &mut variables, &mut marks);
    match written {
        Ok(()) => put_written(rt, sizes, &variables, &marks),
        Err(r) => words::put_refusal(rt, text, c, r),
    }
}
