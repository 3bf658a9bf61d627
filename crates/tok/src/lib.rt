// The tokenizer: gaps, symbols, words, attributes; one call.
#![tactic(auto)]

mod attribute;
pub mod gaps;
mod identifier;
pub mod next;
mod regex;
mod symbols;

ghost use Rattle.std.specs.Prelude.{◌≡◌, ◌+◌, ◌<◌};
ghost use Rattle.reading.specs.Answers.{more, start_in, start_state};

use reading::{Call, Outcome, Tokenizer};
use record::Reading;

// Where a run starts, in a reading.
pub fn start_in(rd: Reading) -> Tokenizer
    ensures { result ≡ start_in rd }
{
    Tokenizer {
        at: 0,
        count: 0,
        done: Outcome::Running,
        reading: rd,
    }
}

// The same in 01's reading.
pub fn start() -> Tokenizer
    ensures { result ≡ start_state }
{
    start_in(Reading::Old)
}

// The same call with n advances before it.
fn more(n: usize, x: Call) -> Call
    requires { n + x.advances < 18446744073709551616 }
    ensures { result ≡ more n x }
{
    Call {
        advances: (n as u64) + x.advances,
        ..x
    }
}
