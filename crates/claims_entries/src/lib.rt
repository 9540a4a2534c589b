// No code: theorems between the grammar of entries and the definitions that the readers' contracts cite.

#![tactic(auto)]
