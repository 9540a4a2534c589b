// No code: theorems between the grammar of extensions and the definition that the reader's contract cites.

#![tactic(auto)]
