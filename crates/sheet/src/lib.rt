// A sheet of totals that takes texts one after another: what hundreds of grammars hold.
#![tactic(auto)]

mod alone;
pub mod gaps;

ghost use Rattle.std.specs.Prelude.{true, ◌≡◌, ℕ, ◌+◌, ◌<◌, ◌≤◌, get_or, length};
ghost use Rattle.record.specs.Checks.{checks};
ghost use Rattle.record.specs.Records.{refusal};
ghost use Rattle.sheet.specs.Adds.{adds, empty_sheet, sheet_size, story, texts_taken};
ghost use Rattle.sheet.specs.Sheet.{added, held, is_sheet, most_texts, plus, taken, taken_as, within};
ghost use Rattle.sheet.specs.declared.Taken.TheVariants.{Refused};

use reading::Outcome;
use record::{Code, Refusal};

// How many numbers a sheet has; 0 to 53 are the tokens of each kind.
pub const SHEET_SIZE: usize = 96;

const ADVANCES_IN: usize = 58;

const TEXTS_TAKEN: usize = 60;

const DEEPEST_IN: usize = 61;

const TALLIES: usize = 64;

// A sheet is full with so many texts.
const MOST_TEXTS: u64 = 1024;

// What became of a text: it was read to its end, or its error was tallied; or it was refused, and nothing changed.
#[derive(Clone, Copy)]
pub enum Taken {
    Whole,
    Tallied(Refusal),
    Refused(Refusal),
}

// Where a gap ends, how many of its characters are whitespace and how many are of comments, and how deep its comments go; or a comment that does not end,
// with the advances.
pub type Gap = Result<(usize, usize, usize, usize), (Refusal, usize)>;

// What a token adds besides one of its kind: its characters, what is dropped after it, the attempt that failed at its place.
#[derive(Clone, Copy)]
pub struct Part {
    pub width: u64,
    pub dropped: u64,
    pub failed: u64,
}

// Where a call of a text leads, with the advances so far; or, where it is not going, how the text ended. Beside it how deep the comments go.
#[derive(Clone, Copy)]
pub struct Read {
    // beside values that count either way: `row_of` and `Going` of specs/ say so
    pub going: bool,
    pub at: usize,
    pub advances: u64,
    pub deep: u64,
    pub how: Outcome,
}

// Whether no number is above another.
fn is_within(list: &[u64], most: u64) -> bool
    ensures { result ≡ within most list.now }
{
    for n in list {
        if most < *n {
            return false;
        }
    }
    true
}

// Whether no number is above 2^50 for each text taken.
fn is_sheet(sheet: &[u64]) -> bool
    requires { (sheet_size ≤ length sheet.now) × (get_or sheet.now texts_taken 0 < most_texts) }
    ensures { result ≡ is_sheet sheet.now }
{
    let most = alone::WORK_LIMIT * sheet[TEXTS_TAKEN];
    is_within(&sheet[..SHEET_SIZE], most)
}

// Each number of the sheet with what the row adds to it.
fn sum_onto(sheet: &mut [u64], row: &[u64])
    requires { (length row.now ≤ length sheet.old) × ((i : ℕ) → i < length row.now → get_or sheet.old i 0 + get_or row.now i 0 < 18446744073709551616) }
    ensures { sheet.new ≡ plus sheet.old row.now }
{
    for (i, n) in row.iter().enumerate() {
        sheet[i] += *n;
    }
}

// What a text is entered on, read alone.
fn empty_row() -> [u64; SHEET_SIZE]
    ensures { result ≡ empty_sheet }
{
    [0; SHEET_SIZE]
}

// A text that passed the checks, onto a sheet that has room for it.
fn add(text: &[u8], sheet: &mut [u64]) -> Taken
    requires { (checks text.now 0 ≡ (Ok tt)) × (sheet_size ≤ length sheet.old) × (get_or sheet.old texts_taken 0 < most_texts) × (is_sheet sheet.old ≡ true) }
    ensures { (result ≡ taken_as (story text.now).how) × (sheet.new ≡ added sheet.old (adds text.now)) }
{
    let mut row = empty_row();
    let read = alone::read_all(text, &mut row);
    let how = read.how;
    match how {
        Outcome::Ended => {
            alone::enter(&mut row, ADVANCES_IN, read.advances);
            alone::enter(&mut row, DEEPEST_IN, read.deep);
            alone::enter(&mut row, TEXTS_TAKEN, 1);
            let deep = alone::greater(sheet[DEEPEST_IN], row[DEEPEST_IN]);
            sum_onto(sheet, &row);
            sheet[DEEPEST_IN] = deep;
            Taken::Whole
        }
        Outcome::Refused(r) => {
            let code = r.code;
            alone::enter(sheet, TALLIES + record::code_number(code) as usize, 1);
            alone::enter(sheet, TEXTS_TAKEN, 1);
            Taken::Tallied(r)
        }
        Outcome::Running => Taken::Whole,
    }
}

// A refusal, with no place: nothing changes.
fn refused(code: Code) -> Taken
    ensures { result ≡ Refused (refusal code 0) }
{
    Taken::Refused(Refusal { code, place: 0 })
}

// A text is taken: its totals are added, or its error is tallied. A refusal changes nothing.
pub fn take(text: &[u8], sheet: &mut [u64]) -> Taken
    ensures { (result ≡ taken text.now sheet.old) × (sheet.new ≡ held text.now sheet.old) }
{
    if sheet.len() < SHEET_SIZE {
        return refused(Code::NoRoom);
    }
    match record::checks(text, 0) {
        Err(r) => Taken::Refused(r),
        Ok(()) => {
            if MOST_TEXTS <= sheet[TEXTS_TAKEN] {
                return refused(Code::SheetFull);
            }
            if is_sheet(sheet) {
                return add(text, sheet);
            }
            refused(Code::BadRecord)
        }
    }
}
