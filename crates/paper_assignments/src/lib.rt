// What is answered to a recording that is to be extended and to a proposed assignment: definitions and laws, and no code of its own.
#![tactic(auto)]
