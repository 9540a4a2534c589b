// No code: the demands as predicates over any reader, writer, lookup and digest; ours meet them, and each fraud of 01 does not.

#![tactic(auto)]
