// A run that tells the depths of comments, in either reading, over numbers and slices, as C programs call it: the archive is of the crate teykonasir_read_c.
// include/teykonasir.h says the function whole.
#![tactic(auto)]

ghost use Rattle.std.specs.Prelude.{◌≡◌, ◌≤◌, length};
ghost use Rattle.record.specs.Records.{over};
ghost use Rattle.numbers.specs.Values.{how_code};
ghost use Rattle.teykonasir_read.specs.Calls.{answered, read_call, six};

use run::Ran;

// 01's number of a refusal for want of room.
const NO_ROOM: u64 = 14;

// 02's number of a refusal for a reading that there is not.
const UNKNOWN_READING: u64 = 24;

// The number of what is not told.
const NOT_TOLD: u64 = 18446744073709551615;

// Six numbers, the last of them not told yet; the code is the result.
fn put_six(answer: &mut [u64], code: u64, place: u64, stored: u64, advances: u64, depth: u64) -> u64
    requires { 6 ≤ length answer.old }
    ensures { (result ≡ code) × (answer.new ≡ over (six code place stored advances depth) answer.old) }
{
    answer[..6].copy_from_slice(&[code, place, stored, advances, depth, NOT_TOLD]);
    code
}

// A run's six numbers.
fn put_read(answer: &mut [u64], ran: Ran) -> u64
    requires { 6 ≤ length answer.old }
    ensures { (result ≡ how_code ran.how) × (answer.new ≡ over (answered ran) answer.old) }
{
    put_six(
        answer,
        numbers::how_code(ran.how),
        numbers::how_place(ran.how),
        ran.stored as u64,
        ran.advances,
        ran.last_depth,
    )
}

// A run from the start, in a reading that is chosen by its number, into records of nine numbers: the answer is code, place, records, advances, depth of the
// last gap, and one number not told yet. A number that names no reading is refused before the text is looked at.
pub fn teyk_read(
    text: &[u8],
    reading: u64,
    shift: u64,
    limit: u64,
    records: &mut [u64],
    answer: &mut [u64],
) -> u64
    ensures { (result ≡ (read_call text.now reading shift limit records.old answer.old).result)
        × (records.new ≡ (read_call text.now reading shift limit records.old answer.old).lent)
        × (answer.new ≡ (read_call text.now reading shift limit records.old answer.old).numbers) }
{
    if answer.len() < 6 {
        return NO_ROOM;
    }
    match record::reading_of(reading) {
        Some(rd) => {
            let ran = run::read_numbers(text, shift, limit, records, tok::start_in(rd));
            put_read(answer, ran)
        }
        None => put_six(answer, UNKNOWN_READING, 0, 0, 0, 0),
    }
}
