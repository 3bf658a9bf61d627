// The numbers of every answer, and that nothing is lost by them: they stand in specs/. The code is what the functions for C programs share.
#![tactic(auto)]

ghost use Rattle.std.specs.Prelude.{◌≡◌};
ghost use Rattle.numbers.specs.Values.{how_code, how_place};

use reading::Outcome;

// How a run stopped, by number: 0 at the end.
pub fn how_code(how: Outcome) -> u64
    ensures { result ≡ how_code how }
{
    match how {
        Outcome::Refused(r) => {
            let code = r.code;
            record::code_number(code) as u64
        }
        Outcome::Ended => 0,
        Outcome::Running => 0,
    }
}

// Where a run was refused; 0 at the end.
pub fn how_place(how: Outcome) -> u64
    ensures { result ≡ how_place how }
{
    match how {
        Outcome::Refused(r) => r.place,
        Outcome::Ended => 0,
        Outcome::Running => 0,
    }
}
