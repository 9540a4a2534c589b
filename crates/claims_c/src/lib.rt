// No code: what a C program gets from the exported functions, end to end, as theorems over what Rattle reads out of their contracts.

#![tactic(auto)]
