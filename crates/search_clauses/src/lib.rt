// The clauses of a place, a row and a node table, for the search: no code.
#![tactic(auto)]
