// Where the old reading and the kept one differ, and that they are one elsewhere; texts with both answers. They stand in specs/; there is no code.
#![tactic(auto)]
