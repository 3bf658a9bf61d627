// Examples by computation: 01's, and small ones beside definitions that only a reader's eye would hold. They stand in specs/; there is no code.
#![tactic(auto)]
