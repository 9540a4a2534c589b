// No code: the kinds of index file, by the hash that their ids are, in `specs/`.

#![tactic(auto)]
