// Document 01's "Meaning" has definitions and laws, and no code of its own.
#![tactic(auto)]
