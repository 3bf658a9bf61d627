// THE BOOKS CLOSE: theorems about what the public functions answer. They stand in specs/; there is no code.
#![tactic(auto)]
