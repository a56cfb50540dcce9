// Question 14 of one gate: whether an assignment meets its clauses, and which is the first that it does not meet.
#![tactic(auto)]

ghost use Rattle.std.specs.Prelude.{◌≡◌, ℕ, ◌+◌, ◌≤◌, ◌<◌, length};
ghost use Rattle.paper_circuit.specs.Gates.{value_of};
ghost use Rattle.table_blocks.specs.Blocks.{bound};
ghost use Rattle.table_sizes.specs.Weights.{clause_weight, weight_of, max_weight};
ghost use Rattle.paper_clauses.specs.Clauses.{clauses_of};
ghost use Rattle.table_gates.specs.Within.{Within};
ghost use Rattle.paper_assignments.specs.Extension.{value_in};
ghost use Rattle.paper_assignments.specs.Calls.{ask_clauses};
ghost use Rattle.table_gates.specs.Mentioned.{Variable, InputsIn};
ghost use Rattle.check_gate.specs.First.{FirstHigh, FirstUnmet};

use paper_circuit::Gate;
use refusal::Refusal;

// Whether variable v is high.
pub fn high(assignment: &[u8], v: u32) -> bool
    requires { Variable (length assignment.now) v }
    ensures { result ≡ value_in assignment.now v }
{
    assignment[v as usize - 1] == 1
}

// How many of n variables from w on are low before the first that is high.
fn first_high(assignment: &[u8], w: u32, n: u32) -> u32
    requires { (w + n ≤ 4294967296) × ((e : ℕ) → e < n → Variable (length assignment.now) (w + e)) }
    ensures { FirstHigh (value_in assignment.now) w n result }
{
    (0..n).find(|&e| high(assignment, w + e)).unwrap_or(n)
}

// The gate's value.
fn value(assignment: &[u8], gate: Gate) -> bool
    requires { InputsIn (length assignment.now) gate × Within gate }
    ensures { result ≡ value_of (value_in assignment.now) gate }
{
    match gate {
        Gate::Constant(up) => up,
        Gate::Copy(u) => high(assignment, u),
        Gate::Inverse(x) => !high(assignment, x),
        Gate::Both(x, y) => high(assignment, x) & high(assignment, y),
        Gate::Either(x, y) => high(assignment, x) | high(assignment, y),
        Gate::AnyOf(w, n) => first_high(assignment, w, n) < n,
        Gate::Step(p, q, s) => high(assignment, p) | (high(assignment, q) & high(assignment, s)),
    }
}

// Which clause is the first unmet one, from 0, of a gate whose variable is high or low (up) where its value is not.
fn first_unmet(assignment: &[u8], up: bool, gate: Gate) -> u32
    requires { InputsIn (length assignment.now) gate × Within gate }
    ensures { FirstUnmet (value_in assignment.now) up gate result }
{
    match gate {
        Gate::Constant(_) => 0,
        Gate::Copy(_) => if up { 0 } else { 1 },
        Gate::Inverse(_) => if up { 1 } else { 0 },
        Gate::Both(x, _) => if !up {
            2
        } else if high(assignment, x) {
            1
        } else {
            0
        },
        Gate::Either(x, _) => if up {
            2
        } else if high(assignment, x) {
            0
        } else {
            1
        },
        Gate::AnyOf(w, n) => first_high(assignment, w, n),
        Gate::Step(p, q, _) => if up {
            if high(assignment, q) { 1 } else { 0 }
        } else {
            if high(assignment, p) { 2 } else { 3 }
        },
    }
}

// Question 14 of a gate's clauses, numbered from n on: all are met where the variable has the gate's value.
pub fn ask_gate(assignment: &[u8], v: u32, gate: Gate, n: u32) -> Result<(), Refusal>
    requires { Variable (length assignment.now) v × InputsIn (length assignment.now) gate × Within gate
        × (weight_of clause_weight gate ≤ max_weight) × (n < bound) }
    ensures { result ≡ ask_clauses (value_in assignment.now) n (clauses_of v gate) }
{
    let up = high(assignment, v);
    if up == value(assignment, gate) {
        return Ok(());
    }
    Err(Refusal {
        number: 14,
        place: n + first_unmet(assignment, up, gate),
    })
}

// How many clauses a gate has.
#[tactic(auto, unfolding(table_sizes::specs::Weights::weight_of))]
pub fn clause_count(gate: Gate) -> u32
    requires { weight_of clause_weight gate ≤ max_weight }
    ensures { result ≡ weight_of clause_weight gate }
{
    match gate {
        Gate::Constant(_) => 1,
        Gate::Copy(_) | Gate::Inverse(_) => 2,
        Gate::Both(..) | Gate::Either(..) => 3,
        Gate::AnyOf(_, n) => n + 1,
        Gate::Step(..) => 4,
    }
}
