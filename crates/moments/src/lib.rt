// The two moments of a call, for contracts: no code.
#![tactic(auto)]
