// The lines of Unicode's files: which code points a line gives which property.
#![tactic(auto)]

pub mod line;
