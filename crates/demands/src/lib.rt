// The demands, of any engine, and that ours alone fulfils them: definitions and theorems, no code.
#![tactic(auto)]
