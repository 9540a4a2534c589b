// No code: the definitions and laws of `specs/` that several crates cite.

#![tactic(auto)]
