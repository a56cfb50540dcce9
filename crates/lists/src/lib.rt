// Lists made by counting, and what holds of every entry: no code.
#![tactic(auto)]
