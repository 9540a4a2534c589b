// No code: the Git index file as relations of bytes and meaning, in `specs/`.

#![tactic(auto)]
