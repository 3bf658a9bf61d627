// What a recorded answer adds, laid out as a sheet, and whether a sheet holds the same.
#![tactic(auto)]

ghost use Rattle.std.specs.Prelude.{◌≡◌, ◌+◌, ◌≤◌, length, slice_set};
ghost use Rattle.summed.specs.Summed.{answer_onto, as_row, between, characters, dropped, ended_onto, failed, fewer, joined, more, recorded_onto, tallies, token_onto, tokens_onto};

use recorded::{front, get, rest};

// The numbers of a row.
const IN_TOKENS: usize = 54;

const IN_GAPS: usize = 55;

const IN_COMMENTS: usize = 56;

const DROPPED_AFTER: usize = 57;

const ADVANCES_IN: usize = 58;

const FAILED_IN: usize = 59;

const TEXTS_TAKEN: usize = 60;

const DEEPEST_IN: usize = 61;

const TALLIES: usize = 64;

// The tallies of the Rust's one code for what is unknown, and of the two that it became.
const UNRECOGNIZED_TOKEN: usize = 65;

const HALF_SYMBOL: usize = 86;

const STRAY_CHARACTER: usize = 87;

// The kinds that add more than themselves.
const HASH: u64 = 34;

const ATTRIBUTE: u64 = 53;

// The numbers of a case.
const SHIFT_AT: usize = 0;

const CODE_AT: usize = 2;

const ADVANCES_AT: usize = 4;

const TOKENS_AT: usize = 6;

// A number of the row with n more.
fn more(row: &mut [u64], i: usize, n: u64)
    ensures { row.new ≡ more i n row.old }
{
    if i < row.len() {
        row[i] = row[i].wrapping_add(n);
    }
}

// A number of the row with n fewer.
fn fewer(row: &mut [u64], i: usize, n: u64)
    ensures { row.new ≡ fewer i n row.old }
{
    if i < row.len() {
        row[i] = row[i].wrapping_sub(n);
    }
}

// A number of the row that is 0 from here on.
fn clear(row: &mut [u64], i: usize)
    ensures { row.new ≡ slice_set row.old i 0 }
{
    if i < row.len() {
        row[i] = 0;
    }
}

// The characters that start in bytes: those that are not 128 to 191.
fn characters(text: &[u8]) -> u64
    ensures { (result ≡ characters text.now) × (result ≤ length text.now) }
{
    text.iter().filter(|b| (**b < 128) | (191 < **b)).count() as u64
}

// The characters that start from a place on and before another.
fn between(text: &[u8], from: usize, to: usize) -> u64
    ensures { (result ≡ between text.now from to) × (result ≤ length text.now) }
{
    characters(front(rest(text, from), to.saturating_sub(from)))
}

// What is dropped after a token that ends at a place.
fn dropped(text: &[u8], kind: u64, end: usize) -> u64
    ensures { (result ≡ dropped text.now kind end) × (result ≤ 1) }
{
    u64::from((kind == ATTRIBUTE) & (end < text.len()))
}

fn failed(kind: u64) -> u64
    ensures { result ≡ failed kind }
{
    u64::from(kind == HASH)
}

// A token from a place to another.
fn token_onto(text: &[u8], kind: u64, from: u64, to: u64, row: &mut [u64])
    ensures { row.new ≡ token_onto text.now kind from to row.old }
{
    let width = between(text, from as usize, to as usize);
    let gone = dropped(text, kind, to as usize);
    more(row, kind as usize, 1);
    more(row, IN_TOKENS, width);
    more(row, DROPPED_AFTER, gone);
    more(row, FAILED_IN, failed(kind));
    fewer(row, IN_GAPS, width + gone);
}

// The tokens, of five numbers each.
fn tokens_onto(text: &[u8], shift: u64, tokens: &[u64], row: &mut [u64])
    ensures { row.new ≡ tokens_onto text.now shift tokens.now row.old }
{
    let mut left = tokens;
    while let [kind, start, end, _, _, others @ ..] = left {
        let from = start.saturating_sub(shift);
        let to = end.saturating_sub(shift);
        token_onto(text, *kind, from, to, row);
        left = others;
    }
}

// A text that was read to its end.
fn ended_onto(text: &[u8], recorded: &[u64], row: &mut [u64])
    ensures { row.new ≡ ended_onto text.now recorded.now row.old }
{
    tokens_onto(
        text,
        get(recorded, SHIFT_AT),
        rest(recorded, TOKENS_AT),
        row,
    );
    more(row, IN_GAPS, characters(text));
    more(row, ADVANCES_IN, get(recorded, ADVANCES_AT));
}

// A text that ended in an error, whose tally may have no number in the row.
fn tallied_onto(code: u64, row: &mut [u64])
    ensures { row.new ≡ more (tallies + code) 1 row.old }
{
    let c = code as usize;
    if c < row.len() {
        more(row, TALLIES + c, 1);
    }
}

// Which of the two it is.
fn answer_onto(text: &[u8], recorded: &[u64], row: &mut [u64])
    ensures { row.new ≡ answer_onto text.now recorded.now row.old }
{
    let code = get(recorded, CODE_AT);
    if code == 0 {
        ended_onto(text, recorded, row);
    } else {
        tallied_onto(code, row);
    }
}

// What a text's recorded answer adds, and the text itself. What the checks refuse adds nothing.
pub fn recorded_onto(text: &[u8], recorded: &[u64], row: &mut [u64])
    ensures { row.new ≡ recorded_onto text.now recorded.now row.old }
{
    let code = get(recorded, CODE_AT);
    if (11 <= code) & (code <= 13) {
        return;
    }
    answer_onto(text, recorded, row);
    more(row, TEXTS_TAKEN, 1);
}

// What a number of a sheet holds is held by another.
fn join(sheet: &mut [u64], i: usize, onto: usize)
    ensures { sheet.new ≡ joined i onto sheet.old }
{
    more(sheet, onto, get(sheet, i));
    clear(sheet, i);
}

// A sheet laid out as a row: whitespace and comments together, what the Rust has one code for, and no depth of comments, which the Rust does not tell. It is held against a row by `recorded::numbers_differ`.
pub fn as_row(sheet: &mut [u64])
    ensures { sheet.new ≡ as_row sheet.old }
{
    join(sheet, IN_COMMENTS, IN_GAPS);
    join(sheet, HALF_SYMBOL, UNRECOGNIZED_TOKEN);
    join(sheet, STRAY_CHARACTER, UNRECOGNIZED_TOKEN);
    clear(sheet, DEEPEST_IN);
}
