// The clauses of a gate, written to a table in memory: its Tseitin encoding, both sides of the equivalence.
#![tactic(auto)]

ghost use Rattle.paper_clauses.specs.Clauses.{clauses_of};
ghost use Rattle.paper_clauses.specs.Entries.{flat};
ghost use Rattle.table_literals.specs.Written.{Room};
ghost use Rattle.table_literals.specs.Writes.{Writes};
ghost use Rattle.table_gates.specs.Within.{Within};

use paper_circuit::Gate;
use table_literals::closing;

// The clauses that define v by a gate, as document 01 prints them. A mark is 1 for a plain literal, and 2 more for its clause's last.
pub fn put_gate(variables: &mut [u32], marks: &mut [u8], at: usize, v: u32, gate: Gate) -> usize
    requires room { Room variables.old marks.old at (flat (clauses_of v gate)) }
    requires within { Within gate }
    ensures { Writes variables marks at (flat (clauses_of v gate)) result }
{
    match gate {
        // (v) or (-v)
        Gate::Constant(up) => table_literals::put(variables, marks, at, &[v], &[closing(up)]),
        // (-v u)(v -u)
        Gate::Copy(u) => table_literals::put(variables, marks, at, &[v, u, v, u], &[0, 3, 1, 2]),
        // (v x)(-v -x)
        Gate::Inverse(x) => table_literals::put(variables, marks, at, &[v, x, v, x], &[1, 3, 0, 2]),
        // (-v x)(-v y)(v -x -y)
        Gate::Both(x, y) => table_literals::put(
            variables,
            marks,
            at,
            &[v, x, v, y, v, x, y],
            &[0, 3, 0, 3, 1, 0, 2],
        ),
        // (v -x)(v -y)(-v x y)
        Gate::Either(x, y) => table_literals::put(
            variables,
            marks,
            at,
            &[v, x, v, y, v, x, y],
            &[1, 2, 1, 2, 0, 1, 3],
        ),
        // (v -w) for each w, (-v w .. w)
        Gate::AnyOf(w, n) => table_literals::put_any(variables, marks, at, v, w, n),
        // (-v p q)(-v p s)(v -p)(v -q -s)
        Gate::Step(p, q, s) => table_literals::put(
            variables,
            marks,
            at,
            &[v, p, q, v, p, s, v, p, v, q, s],
            &[0, 1, 3, 0, 1, 3, 1, 2, 1, 0, 2],
        ),
    }
}
