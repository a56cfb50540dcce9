// Document 01's starred edges: one table and its theorem, no code.
#![tactic(auto)]
