// No code: theorems that link the grammar's cache tree with the definition that its reader's contract cites, in `specs/`.

#![tactic(auto)]
