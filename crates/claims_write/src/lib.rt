// No code: what the writer writes is spelled by the grammar, and reads back; theorems between the definitions that the contracts of writer and reader cite.

#![tactic(auto)]
