// What a literal and a block comment span, said without their readers. It stands in specs/; there is no code.
#![tactic(auto)]
