// The sheet over numbers and slices, as C programs call it: the archive is of the crate teykonasir_sheet_c. include/teykonasir.h says the function whole.
#![tactic(auto)]

ghost use Rattle.std.specs.Prelude.{◌≡◌};
ghost use Rattle.record.specs.Numbers.{code_number};
ghost use Rattle.teykonasir_sheet.specs.Calls.{sheet_call, taken_code, taken_place};

use record::Refusal;
use sheet::Taken;

// 01's number of a refusal for want of room.
const NO_ROOM: u64 = 14;

// A refusal's number, as C has it: a From could stand only in `record`. An archive has what it links alone, so it stands here once more.
fn number_of(r: Refusal) -> u64
    ensures { result ≡ code_number r.code }
{
    let code = r.code;
    record::code_number(code) as u64
}

// 0 for a text that was read to its end, else the number of the error that was tallied, or of the refusal.
fn taken_code(took: Taken) -> u64
    ensures { result ≡ taken_code took }
{
    match took {
        Taken::Whole => 0,
        Taken::Tallied(r) => number_of(r),
        Taken::Refused(r) => number_of(r),
    }
}

fn taken_place(took: Taken) -> u64
    ensures { result ≡ taken_place took }
{
    match took {
        Taken::Whole => 0,
        Taken::Tallied(r) => r.place,
        Taken::Refused(r) => r.place,
    }
}

// A sheet of 96 numbers takes a text: the answer is code, place.
pub fn teyk_sheet_take(text: &[u8], sheet: &mut [u64], answer: &mut [u64]) -> u64
    ensures { (result ≡ (sheet_call text.now sheet.old answer.old).result)
        × (sheet.new ≡ (sheet_call text.now sheet.old answer.old).lent)
        × (answer.new ≡ (sheet_call text.now sheet.old answer.old).numbers) }
{
    if answer.len() < 2 {
        return NO_ROOM;
    }
    let took = sheet::take(text, sheet);
    let code = taken_code(took);
    let place = taken_place(took);
    answer[0] = code;
    answer[1] = place;
    code
}
