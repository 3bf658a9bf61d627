// What a caller of the public functions has: theorems about the tokenizers that `run::next` and `run::run` leave, call after call. They stand in specs/; there is no code.
#![tactic(auto)]
