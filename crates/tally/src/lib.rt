// What the lines of a file of Unicode's say of a property, held against the functions of `unicode_xid`.
#![tactic(auto)]

pub mod tally;
