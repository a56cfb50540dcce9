// Tries document 01's edges that are not starred, and its wrong turns, and writes a line each: what was asked, the answer to
// questions 1 to 7 with the node count, and node x: the refusal's number and place, or its own text. Then lines of the file program:
// how many bytes it writes, and whether the rest of its array is as it was. Then searches, in arrays of 255 before.
#![tactic(auto)]

use file_line::FILE_BYTES;
use paper_search::Answer;
use refusal::Refusal;
use std::io;

fn put_refusal(rt: &impl Print, r: Refusal) -> io::Result<()> {
    print!(rt; "no {} at {}", r.number, r.place)
}

fn put_reply(rt: &impl Print, reply: Result<(), Refusal>) -> io::Result<()> {
    match reply {
        Ok(()) => print!(rt; "yes"),
        Err(r) => put_refusal(rt, r),
    }
}

// Questions 1 to 7, and the count of the node table.
fn put_accepted(rt: &impl Print, text: &[u8], c: u32, k: u32) -> io::Result<()> {
    put_reply(rt, formula_text::accept(text, c, k))?;
    let count = node_calls::node_table(text, c, k).map_or(0, |table| table.count);
    print!(rt; " | {count} nodes")
}

// Questions 1 to 8, and node x.
fn put_node(rt: &impl Print, text: &[u8], c: u32, k: u32, x: u32) -> io::Result<()> {
    print!(rt; " | node {x}: ")?;
    put_reply(rt, node_calls::node_refusal(text, c, k, x))?;
    print!(rt; " `")?;
    rt.write_all(node_calls::node_text(text, c, k, x))?;
    println!(rt; "`")
}

// One line.
fn edge(rt: &impl Print, label: &str, text: &[u8], c: u32, k: u32, x: u32) -> io::Result<()> {
    print!(rt; "{label} | C {c}, k {k} | ")?;
    put_accepted(rt, text, c, k)?;
    put_node(rt, text, c, k, x)
}

// A text that is its own label.
fn own(rt: &impl Print, text: &str, c: u32, k: u32, x: u32) -> io::Result<()> {
    edge(rt, text, text.as_bytes(), c, k, x)
}

fn unstarred(rt: &impl Print) -> io::Result<()> {
    edge(rt, "empty", b"", 1, 0, 1)?;
    own(rt, "(T&T", 1, 0, 1)?;
    edge(rt, "T and a blank", b"T ", 1, 0, 1)?;
    own(rt, "#a>=01", 1, 0, 1)?;
    own(rt, "#b>=1", 1, 0, 1)?;
    own(rt, "#b>=1", 2, 0, 2)?;
    own(rt, "#a>=33", 1, 0, 1)?;
    own(rt, "#a>=32", 1, 0, 1)?;
    own(rt, "T", 1, 33, 1)?;
    own(rt, "T", 1, 32, 1)
}

fn long_texts(rt: &impl Print) -> io::Result<()> {
    let mut long = [b'!'; 256];
    edge(rt, "256 bytes", &long, 1, 0, 1)?;
    long[63] = b'T';
    edge(rt, "63 ! and T", &long[..64], 1, 0, 64)?;
    long[63] = b'!';
    long[64] = b'T';
    edge(rt, "64 ! and T", &long[..65], 1, 0, 1)
}

fn longest_texts(rt: &impl Print) -> io::Result<()> {
    let mut early = [b'!'; 255];
    edge(rt, "255 bytes end early", &early, 1, 0, 1)?;
    early[254] = b'T';
    edge(rt, "254 ! and T", &early, 1, 0, 1)
}

fn many_digits(rt: &impl Print) -> io::Result<()> {
    let mut digits = [b'9'; 204];
    digits[..4].copy_from_slice(b"#a>=");
    edge(rt, "200 digits", &digits, 1, 0, 1)
}

fn wrong_turns(rt: &impl Print) -> io::Result<()> {
    edge(rt, "a blank inside", b"(T &T)", 1, 0, 1)?;
    edge(rt, "NUL inside", b"(T&\0)", 1, 0, 1)?;
    edge(rt, "byte 255 inside", b"[\xff]", 1, 0, 1)?;
    own(rt, "(#a>=33;#b>=1)", 1, 0, 1)?;
    own(rt, "T", 0, 0, 1)?;
    own(rt, "T", 9, 0, 1)?;
    own(rt, "T", u32::MAX, u32::MAX, u32::MAX)?;
    own(rt, "[i]", 8, 0, 1)?;
    own(rt, "[(a;b)]", 8, 0, 1)?;
    own(rt, "a", 8, 0, 1)
}

// Every node of a text of six, and numbers before and after.
fn node_numbers(rt: &impl Print, text: &str) -> io::Result<()> {
    for x in 0..8 {
        own(rt, text, 2, 32, x)?;
    }
    own(rt, text, 2, 32, u32::MAX)
}

// One line of the file program.
fn file(rt: &impl Print, label: &str, input: &str) -> io::Result<()> {
    let mut file = [7u8; FILE_BYTES];
    let n = file_line::file_of_input(input.as_bytes(), &mut file);
    let rest = if file[n..].iter().all(|b| *b == 7) {
        "as it was"
    } else {
        "changed"
    };
    println!(rt; "{label} | {n} bytes | the rest {rest}")
}

fn good_lines(rt: &impl Print) -> io::Result<()> {
    file(rt, "the example", "1 1 #a>=1\n")?;
    file(rt, "C 1, k 0", "1 0 T\n")?;
    file(rt, "C 8, k 32", "8 32 T\n")?;
    file(rt, "8,192 literals", "1 27 !!#!!!T>=1\n")?;
    file(rt, "8,193 literals", "1 7 !#!!!a>=25\n")
}

fn bad_lines(rt: &impl Print) -> io::Result<()> {
    file(rt, "empty input", "")?;
    file(rt, "a line feed alone", "\n")?;
    file(rt, "no line feed", "1 1 #a>=1")?;
    file(rt, "two line feeds", "1 1 #a>=1\n\n")?;
    file(rt, "a second line", "1 1 #a>=1\n1 1 #a>=1\n")?;
    file(rt, "a carriage return", "1 1 #a>=1\r\n")?;
    file(rt, "a blank first", " 1 1 #a>=1\n")?;
    file(rt, "two blanks after C", "1  1 #a>=1\n")?;
    file(rt, "two blanks after k", "1 1  #a>=1\n")?;
    file(rt, "a blank last", "1 1 #a>=1 \n")?;
    file(rt, "TAB after C", "1\t1 #a>=1\n")?;
    file(rt, "TAB after k", "1 1\t#a>=1\n")?;
    file(rt, "no text", "1 1 \n")?;
    file(rt, "no text and no blank", "1 1\n")?;
    file(rt, "no k", "1 #a>=1\n")?;
    file(rt, "#a>=01", "1 1 #a>=01\n")?;
    file(rt, "#b>=1", "1 1 #b>=1\n")?;
    file(rt, "#a>=33", "1 1 #a>=33\n")
}

fn bad_numbers(rt: &impl Print) -> io::Result<()> {
    file(rt, "C 01", "01 1 #a>=1\n")?;
    file(rt, "k 01", "1 01 #a>=1\n")?;
    file(rt, "C 4294967297", "4294967297 1 #a>=1\n")?;
    file(rt, "k 4294967297", "1 4294967297 #a>=1\n")?;
    file(rt, "C 0", "0 1 #a>=1\n")?;
    file(rt, "C 9", "9 1 #a>=1\n")?;
    file(rt, "k 33", "1 33 #a>=1\n")
}

fn put_answer(rt: &impl Print, answer: Result<Answer, Refusal>) -> io::Result<()> {
    match answer {
        Ok(Answer::Found(n)) => print!(rt; "found {n}"),
        Ok(Answer::None(n)) => print!(rt; "none {n}"),
        Ok(Answer::Spent(n)) => print!(rt; "spent {n}"),
        Err(r) => put_refusal(rt, r),
    }
}

// One line: the answer with its count, and the four bytes lent for the recording.
fn sought(rt: &impl Print, text: &str, c: u32, k: u32, limit: u32) -> io::Result<()> {
    let mut variables = [u32::MAX; 2048];
    let mut marks = [255; 2048];
    let mut values = [255; 256];
    let mut trail = [u32::MAX; 256];
    let mut recording = [255; 4];
    let answer = search_calls::search(
        text.as_bytes(),
        c,
        k,
        limit,
        &mut variables,
        &mut marks,
        &mut values,
        &mut trail,
        &mut recording,
    );
    print!(rt; "{text} | C {c}, k {k}, B {limit} | ")?;
    put_answer(rt, answer)?;
    let [first, second, third, fourth] = recording;
    println!(rt; " | {first} {second} {third} {fourth}")
}

// Instants before channels, the first of two ways, forced values that are no tries, dead tries, and the limit beside N.
fn searches(rt: &impl Print) -> io::Result<()> {
    sought(rt, "((#!a>=1;#a>=1)|(#b>=1;#!b>=1))", 2, 2, 100)?;
    sought(rt, "(([a];[!a])|([!a];[a]))", 1, 3, 100)?;
    sought(rt, "#a>=3", 1, 3, 0)?;
    sought(rt, "(#a>=1&!#b>=1)", 2, 3, 100)?;
    sought(rt, "(#a>=1&!#b>=1)", 2, 3, 2)?;
    sought(rt, "(#a>=1&!#b>=1)", 2, 3, 1)?;
    sought(rt, "(#a>=2&#!a>=2)", 1, 3, 100)?;
    sought(rt, "(#a>=2&#!a>=3)", 1, 4, 4)?;
    sought(rt, "(#a>=2&#!a>=3)", 1, 4, 3)?;
    sought(rt, "T", 2, 4, u32::MAX)?;
    sought(rt, "T", 2, 4, 7)?;
    sought(rt, "T", 8, 32, u32::MAX)?;
    sought(rt, "T", 9, 4, 1)
}

fn main(rt: HostRuntime) -> io::Result<()> {
    unstarred(&rt)?;
    long_texts(&rt)?;
    longest_texts(&rt)?;
    many_digits(&rt)?;
    wrong_turns(&rt)?;
    node_numbers(&rt, "((T;F)|#a>=12)")?;
    good_lines(&rt)?;
    bad_lines(&rt)?;
    bad_numbers(&rt)?;
    searches(&rt)
}
