// A gate's clauses (its Tseitin encoding) by their pattern: every literal that they force, one after another, or a clash. It is unit
// propagation within one gate.
#![tactic(auto)]

mod tables;

ghost use Rattle.std.specs.Prelude.{◌≡◌, Bool, true, ℕ, ◌+◌, ◌*◌, ◌≤◌, ◌<◌, length, get_or};
ghost use Rattle.paper_meaning.specs.Meaning.{bit};
ghost use Rattle.search_closing.specs.Values.{Trailing};
ghost use Rattle.search_patterns.specs.Patterns.{value_at, Four, Settles, pattern_of, among, renamed, step_pattern, forced_by, Forces, Quiets, ended_by};
ghost use Rattle.table_gates.specs.Mentioned.{Variable, InputsIn};
ghost use Rattle.paper_circuit.specs.declared.Gate.TheVariants.{Both, Step};
ghost use Rattle.paper_clauses.specs.Clauses.{clauses_of};

use search_closing::Closed;

// The gates: a copy, an inverse, both of two, either of two, a step, the constants, and (v −x), of which an `AnyOf` has many.
#[derive(Clone, Copy)]
pub enum Pattern {
    Copy,
    Inverse,
    Both,
    Either,
    Step,
    Low,
    High,
    Raised,
}

fn wide(x: u8) -> usize
    ensures { result ≡ x }
{
    x as usize
}

fn forced(gate: Pattern, a: u8, b: u8, c: u8, d: u8) -> u8
    requires { (a ≤ 2) × (b ≤ 2) × (c ≤ 2) × (d ≤ 2) }
    ensures { (result ≡ forced_by gate a b c d) × (result ≤ 11) × ((result ≡ 0 → ⊥) → 4 ≤ result) }
{
    let i = wide(a) + 3 * wide(b) + 9 * wide(c);
    match gate {
        Pattern::Copy => tables::COPY_FORCED[i],
        Pattern::Inverse => tables::INVERSE_FORCED[i],
        Pattern::Both => tables::BOTH_FORCED[i],
        Pattern::Either => tables::EITHER_FORCED[i],
        Pattern::Step => tables::STEP_FORCED[i + 27 * wide(d)],
        Pattern::Low => tables::LOW_FORCED[i],
        Pattern::High => tables::HIGH_FORCED[i],
        Pattern::Raised => tables::RAISED_FORCED[i],
    }
}

// The variable of a forced literal.
fn pick(e: u8, v: u32, x: u32, y: u32, z: u32) -> u32
    ensures { (n : ℕ) (u : Bool) → e ≡ 2 * n + bit u + 2 → 1 ≤ n → n ≤ 4 → result ≡ among v x y z n }
{
    if e < 6 {
        return v;
    }
    if e < 8 {
        return x;
    }
    if e < 10 {
        return y;
    }
    z
}

// The value of a variable.
fn value(values: &[u8], v: u32) -> u8
    requires { Variable (length values.now) v }
    ensures { result ≡ value_at values.now v }
{
    values[v as usize - 1]
}

// A gate's bits.
#[tactic(auto, using(crate::proofs::Table::gate_quiets))]
fn quiet_bits(gate: Pattern) -> u32
    ensures { Quiets gate result }
{
    match gate {
        Pattern::Copy => tables::COPY_QUIET,
        Pattern::Inverse => tables::INVERSE_QUIET,
        Pattern::Both => tables::BOTH_QUIET,
        Pattern::Either => tables::EITHER_QUIET,
        Pattern::Step => tables::STEP_QUIET,
        Pattern::Low => tables::LOW_QUIET,
        Pattern::High => tables::HIGH_QUIET,
        Pattern::Raised => tables::RAISED_QUIET,
    }
}

// Nothing is forced by the gate's first three variables, whatever the fourth is.
fn quiet(gate: Pattern, a: u8, b: u8, c: u8) -> bool
    requires { (a ≤ 2) × (b ≤ 2) × (c ≤ 2) }
    ensures { (d : ℕ) → d ≤ 2 → result ≡ true → forced_by gate a b c d ≡ 0 }
{
    (quiet_bits(gate) >> (wide(a) + 3 * wide(b) + 9 * wide(c))) % 2 == 1
}

// Nothing is forced by v, p, q and s where v is a step.
fn step_quiet(a: u8, b: u8, c: u8, d: u8) -> bool
    requires { (a ≤ 2) × (b ≤ 2) × (c ≤ 2) × (d ≤ 2) }
    ensures { result ≡ true → forced_by step_pattern a b c d ≡ 0 }
{
    let i = wide(a) + 3 * wide(b) + 9 * wide(c);
    if d == search_closing::OPEN {
        return (tables::STEP_QUIET_OPEN >> i) % 2 == 1;
    }
    if d == search_closing::HIGH {
        return (tables::STEP_QUIET_HIGH >> i) % 2 == 1;
    }
    (tables::STEP_QUIET_LOW >> i) % 2 == 1
}

// The first literal that the clauses of one of the gates, over these variables, force, as by a unit clause, or none.
fn next_forced(values: &[u8], gate: Pattern, v: u32, x: u32, y: u32, z: u32) -> Option<(u32, u8)>
    requires by_index { (x : ℕ) → get_or values.now x 0 ≤ 2 }
    requires four { Four values.now v x y z }
    ensures { Forces (renamed (among v x y z) (pattern_of gate)) values.now result }
{
    let a = value(values, v);
    let b = value(values, x);
    let c = value(values, y);
    let d = value(values, z);
    let e = forced(gate, a, b, c, d);
    if e == 0 {
        return None;
    }
    Some((pick(e, v, x, y, z), e))
}

// One of the gates by its pattern, over these variables, of which something is forced: twice the top then, and 1 more for a clash, since a
// number is handed back quicker than a struct.
fn settle_on(
    values: &mut [u8],
    trail: &mut [u32],
    top: usize,
    gate: Pattern,
    v: u32,
    x: u32,
    y: u32,
    z: u32,
) -> usize
    requires trailing { Trailing values.old trail.old top }
    requires four { Four values.old v x y z }
    ensures { Settles (renamed (among v x y z) (pattern_of gate)) values trail top (ended_by result) }
{
    let mut t = top;
    loop {
        let Some((u, e)) = next_forced(values, gate, v, x, y, z) else {
            return 2 * t;
        };
        if search_closing::opposed(values, u, e) {
            return 2 * t + 1;
        }
        t = search_closing::add(values, trail, t, u, e);
    }
}

// How it ended, from that number.
fn ended(n: usize) -> Closed
    ensures { result ≡ ended_by n }
{
    Closed {
        clash: n % 2 == 1,
        top: n / 2,
    }
}

// One of the gates by its pattern, over these variables: mostly nothing is forced.
pub fn settle_by(
    values: &mut [u8],
    trail: &mut [u32],
    top: usize,
    gate: Pattern,
    v: u32,
    x: u32,
    y: u32,
    z: u32,
) -> Closed
    requires trailing { Trailing values.old trail.old top }
    requires four { Four values.old v x y z }
    ensures { Settles (renamed (among v x y z) (pattern_of gate)) values trail top result }
{
    let a = value(values, v);
    let b = value(values, x);
    let c = value(values, y);
    if quiet(gate, a, b, c) {
        return Closed {
            clash: false,
            top: top,
        };
    }
    ended(settle_on(values, trail, top, gate, v, x, y, z))
}

// v is x and y.
pub fn settle_both(
    values: &mut [u8],
    trail: &mut [u32],
    top: usize,
    v: u32,
    x: u32,
    y: u32,
) -> Closed
    requires { Trailing values.old trail.old top × Variable (length values.old) v × InputsIn (length values.old) (Both x y) }
    ensures { Settles (clauses_of v (Both x y)) values trail top result }
{
    settle_by(values, trail, top, Pattern::Both, v, x, y, v)
}

// v is p, or q and s: mostly nothing is forced.
pub fn settle_step(
    values: &mut [u8],
    trail: &mut [u32],
    top: usize,
    v: u32,
    p: u32,
    q: u32,
    s: u32,
) -> Closed
    requires { Trailing values.old trail.old top × Variable (length values.old) v × InputsIn (length values.old) (Step p q s) }
    ensures { Settles (clauses_of v (Step p q s)) values trail top result }
{
    let a = value(values, v);
    let b = value(values, p);
    let c = value(values, q);
    let d = value(values, s);
    if step_quiet(a, b, c, d) {
        return Closed {
            clash: false,
            top: top,
        };
    }
    ended(settle_on(values, trail, top, Pattern::Step, v, p, q, s))
}
