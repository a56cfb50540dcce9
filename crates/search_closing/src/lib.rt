// A set of literals as values and a trail, which solvers call a partial assignment: a literal put in, what was put in undone
// (backtracking), and how closing the set (unit propagation) ends.
#![tactic(auto)]

ghost use Rattle.std.specs.Prelude.{◌≡◌, false, ◌+◌, ◌-◌, ◌^◌, ◌≤◌, ◌<◌, length, set};
ghost use Rattle.paper_clauses.specs.Entries.{entry, literal_of};
ghost use Rattle.paper_closure.specs.Closure.{opposite};
ghost use Rattle.search_closing.specs.Values.{held_in, Trailing, Ranged, undone, Adds};

// A variable's value.
pub const OPEN: u8 = 0;

pub const HIGH: u8 = 1;

pub const LOW: u8 = 2;

// The place of a variable's value.
fn place(variable: u32) -> usize
    requires { 1 ≤ variable }
    ensures { result + 1 ≡ variable }
{
    variable as usize - 1
}

// A variable's value at its place, and the variable at the top of the trail.
fn hold(values: &mut [u8], trail: &mut [u32], top: usize, x: usize, value: u8)
    requires { (x < length values.old) × (top < length trail.old) × (x + 1 < 2 ^ 32) }
    ensures values_value { values.new ≡ set values.old x value }
    ensures trail_value { trail.new ≡ set trail.old top (x + 1) }
{
    values[x] = value;
    trail[top] = x as u32 + 1;
}

// Backtracking: the values of the trail's variables from a place on, up to another, are taken back, the last first.
pub fn undo(values: &mut [u8], trail: &[u32], from: usize, to: usize)
    requires { (from ≤ to) × (to ≤ length trail.now) × Ranged values.old trail.now from to }
    ensures { values.new ≡ undone trail.now from (to - from) values.old }
{
    for &v in trail[from..to].iter().rev() {
        values[place(v)] = OPEN;
    }
}

// Whether the literal of a variable and a mark is opposed: its variable has the other value.
pub fn opposed(values: &[u8], variable: u32, mark: u8) -> bool
    requires { (1 ≤ variable) × (variable ≤ length values.now) }
    ensures { result ≡ held_in values.now (opposite (literal_of (entry variable mark))) }
{
    values[place(variable)] == HIGH + mark % 2
}

// The literal of a variable and a mark, which is not opposed, put in where it is not there yet: the top of the trail then.
pub fn add(values: &mut [u8], trail: &mut [u32], top: usize, variable: u32, mark: u8) -> usize
    requires { (1 ≤ variable) × (variable ≤ length values.old) × Trailing values.old trail.old top
        × (held_in values.old (opposite (literal_of (entry variable mark))) ≡ false) }
    ensures { Adds (literal_of (entry variable mark)) values trail top result }
{
    let x = place(variable);
    if values[x] != OPEN {
        return top;
    }
    hold(values, trail, top, x, LOW - mark % 2);
    top + 1
}

// How closing ended, and how many places of the trail are used. A clash is what solvers call a conflict.
#[derive(Clone, Copy)]
pub struct Closed {
    pub clash: bool,
    pub top: usize,
}
