// The functions of the crate teykonasir that C programs link: numbers are u64, a slice is its pointer and its length. include/teykonasir.h says each whole.
#![tactic(auto)]

ghost use Rattle.std.specs.Prelude.{◌≡◌};
ghost use Rattle.teykonasir.specs.Calls.{run_call, resume_call, expand_call, place_call, place_at_call, read_call, write_call, kind_name_call, code_name_call};

// A whole run: each record is five numbers; the answer is code, place, number of records, advances.
#[unsafe(no_mangle)]
pub extern "C" fn teyk_run(
    text: &[u8],
    shift: u64,
    limit: u64,
    records: &mut [u64],
    answer: &mut [u64],
) -> u64
    ensures { (result ≡ (run_call text.now shift limit records.old answer.old).result)
        × (records.new ≡ (run_call text.now shift limit records.old answer.old).lent)
        × (answer.new ≡ (run_call text.now shift limit records.old answer.old).numbers) }
{
    teykonasir::teyk_run(text, shift, limit, records, answer)
}

// The same from the tokenizer that `state` holds in its first four numbers, and moves it on.
#[unsafe(no_mangle)]
pub extern "C" fn teyk_resume(
    text: &[u8],
    shift: u64,
    limit: u64,
    state: &mut [u64],
    records: &mut [u64],
    answer: &mut [u64],
) -> u64
    ensures { (result ≡ (resume_call text.now shift limit state.old records.old answer.old).result)
        × (state.new ≡ (resume_call text.now shift limit state.old records.old answer.old).state)
        × (records.new ≡ (resume_call text.now shift limit state.old records.old answer.old).lent)
        × (answer.new ≡ (resume_call text.now shift limit state.old records.old answer.old).numbers) }
{
    teykonasir::teyk_resume(text, shift, limit, state, records, answer)
}

// String expansion: the answer is the place of the refusal, 0 or 1 (the text or the buffer holds it), its start, its end.
#[unsafe(no_mangle)]
pub extern "C" fn teyk_expand(
    text: &[u8],
    idx0: u64,
    buffer: &mut [u8],
    place: u64,
    answer: &mut [u64],
) -> u64
    ensures { (result ≡ (expand_call text.now idx0 buffer.old place answer.old).result)
        × (buffer.new ≡ (expand_call text.now idx0 buffer.old place answer.old).lent)
        × (answer.new ≡ (expand_call text.now idx0 buffer.old place answer.old).numbers) }
{
    teykonasir::teyk_expand(text, idx0, buffer, place, answer)
}

// Line and column of a place: the answer is these two, or the refusal's place and 0.
#[unsafe(no_mangle)]
pub extern "C" fn teyk_place(text: &[u8], place: u64, answer: &mut [u64]) -> u64
    ensures { (result ≡ (place_call text.now place answer.old).result)
        × (answer.new ≡ (place_call text.now place answer.old).numbers) }
{
    teykonasir::teyk_place(text, place, answer)
}

// The place of a line and a column: the answer is that place, or the refusal's.
#[unsafe(no_mangle)]
pub extern "C" fn teyk_place_at(text: &[u8], line: u64, column: u64, answer: &mut [u64]) -> u64
    ensures { (result ≡ (place_at_call text.now line column answer.old).result)
        × (answer.new ≡ (place_at_call text.now line column answer.old).numbers) }
{
    teykonasir::teyk_place_at(text, line, column, answer)
}

// Reads an LTK file into records of five numbers: the answer is code, place, number of records.
#[unsafe(no_mangle)]
pub extern "C" fn teyk_ltk_read(file: &[u8], records: &mut [u64], answer: &mut [u64]) -> u64
    ensures { (result ≡ (read_call file.now records.old answer.old).result)
        × (records.new ≡ (read_call file.now records.old answer.old).lent)
        × (answer.new ≡ (read_call file.now records.old answer.old).numbers) }
{
    teykonasir::teyk_ltk_read(file, records, answer)
}

// Writes records of five numbers as an LTK file: the answer is code, place, number of bytes.
#[unsafe(no_mangle)]
pub extern "C" fn teyk_ltk_write(records: &[u64], buffer: &mut [u8], answer: &mut [u64]) -> u64
    ensures { (result ≡ (write_call records.now buffer.old answer.old).result)
        × (buffer.new ≡ (write_call records.now buffer.old answer.old).lent)
        × (answer.new ≡ (write_call records.now buffer.old answer.old).numbers) }
{
    teykonasir::teyk_ltk_write(records, buffer, answer)
}

// A kind's name, into the buffer: the answer is its length.
#[unsafe(no_mangle)]
pub extern "C" fn teyk_name_of_kind(kind: u64, buffer: &mut [u8], answer: &mut [u64]) -> u64
    ensures { (result ≡ (kind_name_call kind buffer.old answer.old).result)
        × (buffer.new ≡ (kind_name_call kind buffer.old answer.old).lent)
        × (answer.new ≡ (kind_name_call kind buffer.old answer.old).numbers) }
{
    teykonasir::teyk_name_of_kind(kind, buffer, answer)
}

// A code's name, the same.
#[unsafe(no_mangle)]
pub extern "C" fn teyk_name_of_code(code: u64, buffer: &mut [u8], answer: &mut [u64]) -> u64
    ensures { (result ≡ (code_name_call code buffer.old answer.old).result)
        × (buffer.new ≡ (code_name_call code buffer.old answer.old).lent)
        × (answer.new ≡ (code_name_call code buffer.old answer.old).numbers) }
{
    teykonasir::teyk_name_of_code(code, buffer, answer)
}
