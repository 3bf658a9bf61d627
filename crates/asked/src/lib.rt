// A recorded case, asked again: where our answer first differs from the Rust's, which is recorded as numbers.
#![tactic(auto)]

pub mod expansions;
pub mod texts;

ghost use Rattle.std.specs.Prelude.{◌≡◌};
ghost use Rattle.asked.specs.Answers.{onward};

use recorded::Difference;

// The first of two differences.
pub(crate) fn onward(d: Difference, e: Difference) -> Difference
    ensures { result ≡ onward d e }
{
    match d {
        Difference::Same => e,
        Difference::Length(..) | Difference::Number(..) => d,
    }
}
