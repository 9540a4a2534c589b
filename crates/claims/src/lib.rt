// No code: the demands on the whole file, as theorems between the grammar and the definitions that the reader's contract cites.

#![tactic(auto)]
