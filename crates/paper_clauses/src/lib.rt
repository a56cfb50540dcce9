// The clauses of a formula, as definitions: crate `table_literals` writes them. And a literal's mark, as a table in memory has it.
#![tactic(auto)]

// Whether a literal is plain; where the mark is read as a literal alone, its last bit counts.
pub const NEGATED: u8 = 0;

pub const PLAIN: u8 = 1;

// The same of its clause's last literal.
pub const LAST_NEGATED: u8 = 2;

pub const LAST_PLAIN: u8 = 3;
