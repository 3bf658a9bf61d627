// What the Rust calls `UnrecognizedToken`, and the two codes that it became: 01's definition as it was, the map, and which texts are which. They stand in specs/; there is no code.
#![tactic(auto)]
