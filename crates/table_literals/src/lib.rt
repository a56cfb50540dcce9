// Literals written to a table in memory: two parallel arrays, variable numbers and marks.
#![tactic(auto)]

ghost use Rattle.std.specs.Prelude.{◌≡◌, List, ◌+◌, ◌≤◌, length};
ghost use Rattle.std.proofs.lemmas.List.Edits.{sets};
ghost use Rattle.lists.specs.Listing.{rows};
ghost use Rattle.paper_clauses.specs.Entries.{Entry, variables_in, marks_in, flat};
ghost use Rattle.paper_circuit.specs.declared.Gate.TheVariants.{AnyOf};
ghost use Rattle.paper_meaning.specs.Meaning.{bit};
ghost use Rattle.paper_clauses.specs.Clauses.{clauses_of};
ghost use Rattle.table_literals.specs.Written.{Room, run_of, raised_of, long_of, limit};
ghost use Rattle.table_literals.specs.Writes.{Writes};

use paper_clauses::{LAST_NEGATED, LAST_PLAIN, NEGATED, PLAIN};

// Stores items from a place on.
pub fn store<T: Copy>(out: &mut [T], at: usize, more: &[T])
    requires { at + length more.now ≤ length out.old }
    ensures { out.new ≡ sets out.old at more.now }
{
    // One by one: a copy of the whole makes the compiler build short lists in memory first, and takes half as long again.
    for (e, item) in more.iter().enumerate() {
        out[at + e] = *item;
    }
}

// Numbers and their marks, from a place on; the place after them. The numbers go before the marks, so that each are stored together.
pub fn put(variables: &mut [u32], marks: &mut [u8], at: usize, n: &[u32], m: &[u8]) -> usize
    requires { (at + length n.now ≤ length variables.old) × (at + length m.now ≤ length marks.old) }
    ensures { (F : List Entry) → variables_in F ≡ n.now → marks_in F ≡ m.now → Writes variables marks at F result }
{
    store(variables, at, n);
    store(marks, at, m);
    at + n.len()
}

// n variables from w on, each with the same mark.
pub fn put_run(
    variables: &mut [u32],
    marks: &mut [u8],
    at: usize,
    w: u32,
    n: u32,
    mark: u8,
) -> usize
    requires room { Room variables.old marks.old at (rows n (run_of w mark)) }
    requires n_bound { w + n ≤ limit }
    ensures { Writes variables marks at (rows n (run_of w mark)) result }
{
    let end = at + n as usize;
    for (e, v) in variables[at..end].iter_mut().enumerate() {
        *v = w + e as u32;
    }
    marks[at..end].fill(mark);
    end
}

// (v -w) for n variables w.
fn put_raised(variables: &mut [u32], marks: &mut [u8], at: usize, v: u32, w: u32, n: u32) -> usize
    requires room { Room variables.old marks.old at (rows n (raised_of v w)) }
    requires n_bound { w + n ≤ limit }
    ensures { Writes variables marks at (rows n (raised_of v w)) result }
{
    let mut b = at;
    for e in 0..n {
        b = put(variables, marks, b, &[v, w + e], &[PLAIN, LAST_NEGATED]);
    }
    b
}

// (-v w .. w) over n variables w.
fn put_long(variables: &mut [u32], marks: &mut [u8], at: usize, v: u32, w: u32, n: u32) -> usize
    requires room { Room variables.old marks.old at (long_of v w n) }
    requires le_n { (1 ≤ n) × (w + n ≤ limit) }
    ensures { Writes variables marks at (long_of v w n) result }
{
    let last = n - 1;
    let b = put(variables, marks, at, &[v], &[NEGATED]);
    let d = put_run(variables, marks, b, w, last, PLAIN);
    put(variables, marks, d, &[w + last], &[LAST_PLAIN])
}

// v is any of n variables from w on.
pub fn put_any(variables: &mut [u32], marks: &mut [u8], at: usize, v: u32, w: u32, n: u32) -> usize
    requires room { Room variables.old marks.old at (flat (clauses_of v (AnyOf w n))) }
    requires le_n { (1 ≤ n) × (w + n ≤ limit) }
    ensures { Writes variables marks at (flat (clauses_of v (AnyOf w n))) result }
{
    let b = put_raised(variables, marks, at, v, w, n);
    put_long(variables, marks, b, v, w, n)
}

// The mark of a clause's final literal.
pub fn closing(plain: bool) -> u8
    ensures { result ≡ bit plain + 2 }
{
    if plain { LAST_PLAIN } else { LAST_NEGATED }
}
