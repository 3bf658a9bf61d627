// What C programs call, over numbers and slices: the archive is of the crate teykonasir_c. include/teykonasir.h says each function whole.
#![tactic(auto)]

ghost use Rattle.std.specs.Prelude.{◌≡◌, ◌≤◌, length};
ghost use Rattle.record.specs.Numbers.{code_number};
ghost use Rattle.record.specs.Records.{over};
ghost use Rattle.numbers.specs.Values.{held_number, how_code};
ghost use Rattle.teykonasir.specs.Calls.{run_numbers, expand_code, expand_numbers, reported_code, place_numbers, located_code, located_number, answer_code, answer_place, answer_count, ltk_numbers, run_call, resume_call, expand_call, place_call, place_at_call, read_call, write_call, kind_name_call, code_name_call, came_code, came_length};
ghost use Rattle.teykonasir.specs.State.{code_known, state_from, state_numbers};

use escapes::{Held, Part};
use place::Place;
use reading::{Outcome, Tokenizer};
use record::{Code, Reading, Refusal};
use run::Ran;

// 01's numbers of a refusal for want of room, and of one for numbers that stand for nothing.
const NO_ROOM: u64 = 14;

const BAD_RECORD: u64 = 20;

// The third number of a tokenizer that has ended: no refusal's.
const ENDED: u64 = 32;

// The number of the slice that holds an expansion: C's alone, and a From<Held> could stand only in `escapes`.
fn held_number(held: Held) -> u64
    ensures { result ≡ held_number held }
{
    match held {
        Held::Text => 0,
        Held::Buffer => 1,
    }
}

// A refusal's number, as C has it: a From could stand only in `record`.
fn number_of(r: Refusal) -> u64
    ensures { result ≡ code_number r.code }
{
    u64::from(record::code_number(r.code))
}

// An expansion's code: 0 where there is one. This and the next ones are one function to a definition, which the C functions' contracts name: over one
// type parameter they would be said of each again.
fn expand_code(e: Result<Part, Refusal>) -> u64
    ensures { result ≡ expand_code e }
{
    match e {
        Ok(_) => 0,
        Err(r) => number_of(r),
    }
}

// A reported place's code: 0 where there is one.
fn reported_code(told: Result<Place, Refusal>) -> u64
    ensures { result ≡ reported_code told }
{
    match told {
        Ok(_) => 0,
        Err(r) => number_of(r),
    }
}

// The way back's code, the same.
fn located_code(found: Result<u64, Refusal>) -> u64
    ensures { result ≡ located_code found }
{
    match found {
        Ok(_) => 0,
        Err(r) => number_of(r),
    }
}

// The place that was found, or the refusal's.
fn located_number(found: Result<u64, Refusal>) -> u64
    ensures { result ≡ located_number found }
{
    match found {
        Ok(p) => p,
        Err(r) => r.place,
    }
}

// An LTK answer's code: 0 where nothing is refused.
fn answer_code(a: Result<usize, Refusal>) -> u64
    ensures { result ≡ answer_code a }
{
    match a {
        Ok(_) => 0,
        Err(r) => number_of(r),
    }
}

fn answer_place(a: Result<usize, Refusal>) -> u64
    ensures { result ≡ answer_place a }
{
    match a {
        Ok(_) => 0,
        Err(r) => r.place,
    }
}

fn answer_count(a: Result<usize, Refusal>) -> u64
    ensures { result ≡ answer_count a }
{
    match a {
        Ok(n) => n as u64,
        Err(_) => 0,
    }
}

// The first numbers of an answer.
fn put<const N: usize>(answer: &mut [u64], numbers: [u64; N])
    requires { N ≤ length answer.old }
    ensures { answer.new ≡ over numbers.entry answer.old }
{
    answer[..N].copy_from_slice(&numbers);
}

// A run's four numbers; its code is the result.
fn put_ran(answer: &mut [u64], ran: Ran) -> u64
    requires { 4 ≤ length answer.old }
    ensures { (result ≡ how_code ran.how) × (answer.new ≡ over (run_numbers ran) answer.old) }
{
    let code = numbers::how_code(ran.how);
    let place = numbers::how_place(ran.how);
    put(answer, [code, place, ran.stored as u64, ran.advances]);
    code
}

// An LTK answer's three numbers; its code is the result.
fn put_answered(answer: &mut [u64], a: Result<usize, Refusal>) -> u64
    requires { 3 ≤ length answer.old }
    ensures { (result ≡ answer_code a) × (answer.new ≡ over (ltk_numbers a) answer.old) }
{
    let code = answer_code(a);
    put(answer, [code, answer_place(a), answer_count(a)]);
    code
}

// The refusals in the order of their numbers, from 1 on.
const CODES: [Code; 29] = [
    Code::UnrecognizedToken,
    Code::UnterminatedEscape,
    Code::UnterminatedAsciiEscape,
    Code::UnrecognizedEscape,
    Code::UnterminatedStringLiteral,
    Code::UnterminatedCharacterLiteral,
    Code::UnterminatedAttribute,
    Code::UnterminatedCode,
    Code::ExpectedStringLiteral,
    Code::UnterminatedBlockComment,
    Code::NotUtf8,
    Code::TooLong,
    Code::ShiftTooLarge,
    Code::NoRoom,
    Code::WorkLimit,
    Code::TrailingBackslash,
    Code::BadMark,
    Code::UnknownVersion,
    Code::BadLength,
    Code::BadRecord,
    Code::SheetFull,
    Code::HalfSymbol,
    Code::StrayCharacter,
    Code::UnknownReading,
    Code::TooDeep,
    Code::TextMismatch,
    Code::ChangeListFull,
    Code::BadEdit,
    Code::StaleRecords,
];

// The refusal of a number.
fn code_of(n: u64) -> Option<Code>
    ensures { result ≡ code_known n }
{
    if n < 1 {
        return None;
    }
    if 30 <= n {
        return None;
    }
    let i = (n - 1) as usize;
    let code = CODES[i];
    Some(code)
}

// The tokenizer of four numbers, in the old reading.
fn state_from(at: u64, count: u64, done: u64, place: u64) -> Option<Tokenizer>
    ensures { result ≡ state_from at count done place }
{
    if done == 0 {
        return Some(Tokenizer {
            at,
            count,
            done: Outcome::Running,
            reading: Reading::Old,
        });
    }
    if done == ENDED {
        return Some(Tokenizer {
            at,
            count,
            done: Outcome::Ended,
            reading: Reading::Old,
        });
    }
    match code_of(done) {
        Some(code) => Some(Tokenizer {
            at,
            count,
            done: Outcome::Refused(Refusal { code, place }),
            reading: Reading::Old,
        }),
        None => None,
    }
}

// A tokenizer's numbers: the fourth stays where there is no error.
fn put_state(state: &mut [u64], t: Tokenizer)
    requires { 4 ≤ length state.old }
    ensures { state.new ≡ over (state_numbers t) state.old }
{
    let done = t.done;
    match done {
        Outcome::Running => put(state, [t.at, t.count, 0]),
        Outcome::Ended => put(state, [t.at, t.count, ENDED]),
        Outcome::Refused(r) => put(state, [t.at, t.count, number_of(r), r.place]),
    }
}

// How the bytes of a name came into a buffer, by number, and how many did.
fn came_code(came: Option<usize>) -> u64
    ensures { result ≡ came_code came }
{
    match came {
        Some(_) => 0,
        None => NO_ROOM,
    }
}

fn came_length(came: Option<usize>) -> u64
    ensures { result ≡ came_length came }
{
    match came {
        Some(n) => n as u64,
        None => 0,
    }
}

// An expansion's four numbers.
fn put_expanded(answer: &mut [u64], e: Result<Part, Refusal>)
    requires { 4 ≤ length answer.old }
    ensures { answer.new ≡ over (expand_numbers e) answer.old }
{
    match e {
        Ok(p) => {
            put(
                answer,
                [0, held_number(p.held), p.start as u64, p.end as u64],
            )
        }
        Err(r) => put(answer, [r.place, 0, 0, 0]),
    }
}

// Line and column, or the refusal's place and 0.
fn put_reported(answer: &mut [u64], told: Result<Place, Refusal>)
    requires { 2 ≤ length answer.old }
    ensures { answer.new ≡ over (place_numbers told) answer.old }
{
    match told {
        Ok(p) => put(answer, [p.line, p.column]),
        Err(r) => put(answer, [r.place, 0]),
    }
}

// A whole run: each record is five numbers; the answer is code, place, number of records, advances.
pub fn teyk_run(text: &[u8], shift: u64, limit: u64, records: &mut [u64], answer: &mut [u64]) -> u64
    ensures { (result ≡ (run_call text.now shift limit records.old answer.old).result)
        × (records.new ≡ (run_call text.now shift limit records.old answer.old).lent)
        × (answer.new ≡ (run_call text.now shift limit records.old answer.old).numbers) }
{
    if answer.len() < 4 {
        return NO_ROOM;
    }
    let ran = run::run_numbers(text, shift, limit, records, tok::start());
    put_ran(answer, ran)
}

// The same from the tokenizer that `state` holds in its first four numbers, and moves it on.
pub fn teyk_resume(
    text: &[u8],
    shift: u64,
    limit: u64,
    state: &mut [u64],
    records: &mut [u64],
    answer: &mut [u64],
) -> u64
    ensures { (result ≡ (resume_call text.now shift limit state.old records.old answer.old).result)
        × (state.new ≡ (resume_call text.now shift limit state.old records.old answer.old).state)
        × (records.new ≡ (resume_call text.now shift limit state.old records.old answer.old).lent)
        × (answer.new ≡ (resume_call text.now shift limit state.old records.old answer.old).numbers) }
{
    if answer.len() < 4 {
        return NO_ROOM;
    }
    if state.len() < 4 {
        return NO_ROOM;
    }
    let count = state[1];
    match state_from(state[0], count, state[2], state[3]) {
        Some(t) => {
            let ran = run::run_numbers(text, shift, limit, records, t);
            let left = ran.state;
            put_state(state, left);
            put_ran(answer, ran)
        }
        None => {
            put(answer, [BAD_RECORD, 0, 0, count]);
            BAD_RECORD
        }
    }
}

// String expansion: the answer is the place of the refusal, 0 or 1 (the text or the buffer holds it), its start, its end.
pub fn teyk_expand(text: &[u8], idx0: u64, buffer: &mut [u8], place: u64, answer: &mut [u64]) -> u64
    ensures { (result ≡ (expand_call text.now idx0 buffer.old place answer.old).result)
        × (buffer.new ≡ (expand_call text.now idx0 buffer.old place answer.old).lent)
        × (answer.new ≡ (expand_call text.now idx0 buffer.old place answer.old).numbers) }
{
    if answer.len() < 4 {
        return NO_ROOM;
    }
    let e = escapes::apply_string_escapes(text, idx0, buffer, place as usize);
    put_expanded(answer, e);
    expand_code(e)
}

// Line and column of a place: the answer is these two, or the refusal's place and 0.
pub fn teyk_place(text: &[u8], place: u64, answer: &mut [u64]) -> u64
    ensures { (result ≡ (place_call text.now place answer.old).result)
        × (answer.new ≡ (place_call text.now place answer.old).numbers) }
{
    if answer.len() < 2 {
        return NO_ROOM;
    }
    let told = place::line_column(text, place);
    put_reported(answer, told);
    reported_code(told)
}

// The place of a line and a column: the answer is that place, or the refusal's.
pub fn teyk_place_at(text: &[u8], line: u64, column: u64, answer: &mut [u64]) -> u64
    ensures { (result ≡ (place_at_call text.now line column answer.old).result)
        × (answer.new ≡ (place_at_call text.now line column answer.old).numbers) }
{
    if answer.len() < 1 {
        return NO_ROOM;
    }
    let found = place::place_at(text, line, column);
    answer[0] = located_number(found);
    located_code(found)
}

// Reads an LTK file into records of five numbers: the answer is code, place, number of records.
pub fn teyk_ltk_read(file: &[u8], records: &mut [u64], answer: &mut [u64]) -> u64
    ensures { (result ≡ (read_call file.now records.old answer.old).result)
        × (records.new ≡ (read_call file.now records.old answer.old).lent)
        × (answer.new ≡ (read_call file.now records.old answer.old).numbers) }
{
    if answer.len() < 3 {
        return NO_ROOM;
    }
    let reading = ltk::read_numbers(file, records);
    put_answered(answer, reading)
}

// Writes records of five numbers as an LTK file: the answer is code, place, number of bytes.
pub fn teyk_ltk_write(records: &[u64], buffer: &mut [u8], answer: &mut [u64]) -> u64
    ensures { (result ≡ (write_call records.now buffer.old answer.old).result)
        × (buffer.new ≡ (write_call records.now buffer.old answer.old).lent)
        × (answer.new ≡ (write_call records.now buffer.old answer.old).numbers) }
{
    if answer.len() < 3 {
        return NO_ROOM;
    }
    let writing = ltk::write_numbers(records, buffer);
    put_answered(answer, writing)
}

// A kind's name, into the buffer: the answer is its length.
pub fn teyk_name_of_kind(kind: u64, buffer: &mut [u8], answer: &mut [u64]) -> u64
    ensures { (result ≡ (kind_name_call kind buffer.old answer.old).result)
        × (buffer.new ≡ (kind_name_call kind buffer.old answer.old).lent)
        × (answer.new ≡ (kind_name_call kind buffer.old answer.old).numbers) }
{
    if answer.len() < 1 {
        return NO_ROOM;
    }
    if 54 <= kind {
        answer[0] = 0;
        return BAD_RECORD;
    }
    let came = text::kind_name(buffer, Some(0), kind);
    answer[0] = came_length(came);
    came_code(came)
}

// A code's name, the same.
pub fn teyk_name_of_code(code: u64, buffer: &mut [u8], answer: &mut [u64]) -> u64
    ensures { (result ≡ (code_name_call code buffer.old answer.old).result)
        × (buffer.new ≡ (code_name_call code buffer.old answer.old).lent)
        × (answer.new ≡ (code_name_call code buffer.old answer.old).numbers) }
{
    if answer.len() < 1 {
        return NO_ROOM;
    }
    if code < 1 {
        answer[0] = 0;
        return BAD_RECORD;
    }
    if 30 <= code {
        answer[0] = 0;
        return BAD_RECORD;
    }
    let came = text::code_name(buffer, Some(0), code);
    answer[0] = came_length(came);
    came_code(came)
}
