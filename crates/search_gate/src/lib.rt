// The gate that defines a variable visited, whatever gate it is: each but one is a pattern over its variables.
#![tactic(auto)]

ghost use Rattle.std.specs.Prelude.{◌≡◌, true, false, ◌⊎◌, length};
ghost use Rattle.paper_clauses.specs.Clauses.{clauses_of};
ghost use Rattle.search_closing.specs.Values.{Trailing};
ghost use Rattle.table_gates.specs.Within.{Within};
ghost use Rattle.table_gates.specs.Mentioned.{Variable, InputsIn};
ghost use Rattle.search_patterns.specs.Patterns.{low_pattern, high_pattern};
ghost use Rattle.search_visits.specs.Visits.{Visits};

use paper_circuit::Gate;
use search_closing::Closed;
use search_patterns::{Pattern, settle_both, settle_by, settle_step};

// The pattern of a constant.
pub fn constant(up: bool) -> Pattern
    ensures { ((result ≡ high_pattern) × (up ≡ true)) ⊎ ((result ≡ low_pattern) × (up ≡ false)) }
{
    if up { Pattern::High } else { Pattern::Low }
}

// The gate that defines v.
pub fn visit(values: &mut [u8], trail: &mut [u32], top: usize, v: u32, gate: Gate) -> Closed
    requires { Trailing values.old trail.old top × Variable (length values.old) v × InputsIn (length values.old) gate × Within gate }
    ensures { Visits (clauses_of v gate) values trail top result }
{
    match gate {
        Gate::Constant(up) => settle_by(values, trail, top, constant(up), v, v, v, v),
        Gate::Copy(u) => settle_by(values, trail, top, Pattern::Copy, v, u, v, v),
        Gate::Inverse(x) => settle_by(values, trail, top, Pattern::Inverse, v, x, v, v),
        Gate::Both(x, y) => settle_both(values, trail, top, v, x, y),
        Gate::Either(x, y) => settle_by(values, trail, top, Pattern::Either, v, x, y, v),
        Gate::AnyOf(w, n) => search_visits::visit_any(values, trail, top, v, w, n),
        Gate::Step(p, q, s) => settle_step(values, trail, top, v, p, q, s),
    }
}
