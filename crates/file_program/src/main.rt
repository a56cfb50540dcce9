// The file program: it reads a line from standard input and writes the clause file to standard output, or nothing.
#![tactic(auto)]

use file_line::FILE_BYTES;
use std::io;
use std::io::Read;

fn main(rt: HostRuntime) -> io::Result<()> {
    let mut input = file_line::room_for_input();
    let room = input.len();
    let n = io::copy(&mut rt.stdin().take(room as u64), &mut input.as_mut_slice())?;
    let mut file = [0u8; FILE_BYTES];
    let bytes = file_line::file_of_input(&input[..room.min(n as usize)], &mut file);
    rt.write_all(&file[..bytes])
}
