// Clauses visited: every literal that they force, one after another, or a clash: unit propagation, a gate at a time. Here those of the gate
// that no pattern fits: v is any of n variables.
#![tactic(auto)]

ghost use Rattle.std.specs.Prelude.{◌≡◌, true, false, ◌+◌, ◌<◌, length, ◌⊎◌, [], ◌∷◌, ◌++◌};
ghost use Rattle.paper_clauses.specs.Clauses.{clauses_of, Clause};
ghost use Rattle.search_closing.specs.Values.{Trailing, held_in};
ghost use Rattle.search_visits.specs.Visits.{Row, raised_by, long_by, Visits};
ghost use Rattle.table_gates.specs.Mentioned.{Variable};
ghost use Rattle.lists.specs.Listing.{rows};
ghost use Rattle.paper_circuit.specs.declared.Gate.TheVariants.{AnyOf};
ghost use Rattle.paper_clauses.specs.Entries.{entry, literal_of};
ghost use Rattle.paper_closure.specs.Closure.{opposite};
ghost use Rattle.search_closing.specs.Free.{free_of, Tally};

use search_closing::Closed;
use search_patterns::Pattern;

// v is high or w is low, for each of n variables from w on.
fn visit_each(values: &mut [u8], trail: &mut [u32], top: usize, v: u32, w: u32, n: u32) -> Closed
    requires { Trailing values.old trail.old top × Variable (length values.old) v × Row (length values.old) w n }
    ensures { Visits (rows n (raised_by v w)) values trail top result }
{
    let mut t = top;
    for e in 0..n {
        let r = search_patterns::settle_by(values, trail, t, Pattern::Raised, v, w + e, v, v);
        if r.clash {
            return r;
        }
        t = r.top;
    }
    Closed {
        clash: false,
        top: t,
    }
}

// A clause with so many literals that are not opposed, the last of them that of a variable and a mark: with none it is a clash, with one it
// is unit, and that one is forced.
fn visit_tallied(
    values: &mut [u8],
    trail: &mut [u32],
    top: usize,
    free: usize,
    variable: u32,
    mark: u8,
) -> Closed
    requires { Trailing values.old trail.old top × Variable (length values.old) variable
        × ((free ≡ 1) → held_in values.old (opposite (literal_of (entry variable mark))) ≡ false) }
    ensures { (c : Clause) → 0 < length c → Tally (free_of (held_in values.old) c) free (literal_of (entry variable mark))
        → Visits (c ∷ []) values trail top result }
{
    if free == 0 {
        return Closed {
            clash: true,
            top: top,
        };
    }
    if free != 1 {
        return Closed {
            clash: false,
            top: top,
        };
    }
    let t = search_closing::add(values, trail, top, variable, mark);
    Closed {
        clash: false,
        top: t,
    }
}

// One literal that is not opposed, or none.
fn one_free(opposed: bool) -> usize
    ensures { ((result ≡ 0) × (opposed ≡ true)) ⊎ ((result ≡ 1) × (opposed ≡ false)) }
{
    if opposed { 0 } else { 1 }
}

// v is low or one of n variables from w on is high.
fn visit_long(values: &mut [u8], trail: &mut [u32], top: usize, v: u32, w: u32, n: u32) -> Closed
    requires { Trailing values.old trail.old top × Variable (length values.old) v × Row (length values.old) w n }
    ensures { Visits (long_by v w n ∷ []) values trail top result }
{
    let mut free = one_free(search_closing::opposed(values, v, paper_clauses::NEGATED));
    let mut last = v;
    let mut mark = paper_clauses::NEGATED;
    for e in 0..n {
        if !search_closing::opposed(values, w + e, paper_clauses::PLAIN) {
            if free == 1 {
                return Closed {
                    clash: false,
                    top: top,
                };
            }
            free = 1;
            last = w + e;
            mark = paper_clauses::PLAIN;
        }
    }
    visit_tallied(values, trail, top, free, last, mark)
}

// v is any of n variables from w on.
pub fn visit_any(values: &mut [u8], trail: &mut [u32], top: usize, v: u32, w: u32, n: u32) -> Closed
    requires { Trailing values.old trail.old top × Variable (length values.old) v × Row (length values.old) w n }
    ensures { Visits (clauses_of v (AnyOf w n)) values trail top result }
{
    let r = visit_each(values, trail, top, v, w, n);
    if r.clash {
        return r;
    }
    visit_long(values, trail, r.top, v, w, n)
}

// One of n variables from w on, of which v is any: (v −w), and the long clause.
pub fn visit_one(
    values: &mut [u8],
    trail: &mut [u32],
    top: usize,
    v: u32,
    w: u32,
    e: u32,
    n: u32,
) -> Closed
    requires { Trailing values.old trail.old top × Variable (length values.old) v × Row (length values.old) w n × (e < n) }
    ensures { Visits (raised_by v w e ++ long_by v w n ∷ []) values trail top result }
{
    let r = search_patterns::settle_by(values, trail, top, Pattern::Raised, v, w + e, v, v);
    if r.clash {
        return r;
    }
    visit_long(values, trail, r.top, v, w, n)
}
