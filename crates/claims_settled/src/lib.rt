// No code: that the contract of every callable function settles its answer and every lent store.

#![tactic(auto)]
