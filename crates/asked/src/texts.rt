// A recorded text, asked in three forms; each answers the first difference from what is recorded.
ghost use Rattle.std.specs.Prelude.{◌≡◌, ◌≤◌, length};
ghost use Rattle.record.specs.Numbers.{code_number};
ghost use Rattle.record.specs.Rust.{rust_number};
ghost use Rattle.asked.specs.Texts.{blank, called_differs, code_of, end_differs, is_read, kind_of, length_differs, listed_differs, numbered_differs, place_of, run_differs, size, token_differs};

use crate::onward;
use reading::{Outcome, Tokenizer, What};
use record::{Refusal, Token};
use recorded::{Difference, front, numbers_differ, rest};
use run::Ran;

const HIGHEST: u64 = 18446744073709551615;

// The numbers before those of the tokens.
const HEAD: usize = 5;

// The most tokens that a recorded text has, and the room for their numbers.
const TOKENS: usize = 4000;

const ROOM: usize = 20000;

// What the list holds before a run.
const BLANK: u64 = 9999999999999999999;

fn blank() -> [u64; 20000]
    ensures { result ≡ blank }
{
    [BLANK; ROOM]
}

// A refusal's number, as the Rust has it.
fn rust_code(r: Refusal) -> u64
    ensures { result ≡ rust_number (code_number r.code) }
{
    let c = r.code;
    record::rust_number(record::code_number(c)) as u64
}

// The same of an outcome; 0 at the end, and 255, which no refusal has, for a run that goes on.
fn code(how: Outcome) -> u64
    ensures { result ≡ code_of how }
{
    match how {
        Outcome::Refused(r) => rust_code(r),
        Outcome::Ended => 0,
        Outcome::Running => 255,
    }
}

// A refusal's place; 0 at the end.
fn place(how: Outcome) -> u64
    ensures { result ≡ place_of how }
{
    match how {
        Outcome::Refused(r) => r.place,
        Outcome::Ended => 0,
        Outcome::Running => 0,
    }
}

// How many numbers so many tokens have.
fn size(tokens: usize) -> usize
    ensures { result ≡ size tokens }
{
    5 * tokens.min(TOKENS)
}

fn run_differs(recorded: &[u64], ran: Ran, list: &[u64]) -> Difference
    ensures { result ≡ run_differs recorded.now ran list.now }
{
    let how = ran.how;
    let state = ran.state;
    let head = [
        ran.stored as u64,
        code(how),
        place(how),
        ran.advances,
        state.at,
    ];
    onward(
        numbers_differ(0, front(recorded, HEAD), &head),
        numbers_differ(5, rest(recorded, HEAD), front(list, size(ran.stored))),
    )
}

// 01's form: a whole run into a lent list of records.
pub fn listed(text: &[u8], shift: u64, recorded: &[u64]) -> Difference
    ensures { result ≡ listed_differs text.now shift recorded.now }
{
    let mut list = blank();
    let ran = lent::run_listed(text, shift, HIGHEST, &mut list, tok::start());
    run_differs(recorded, ran, &list)
}

// A whole run into a list of numbers.
pub fn numbered(text: &[u8], shift: u64, recorded: &[u64]) -> Difference
    ensures { result ≡ numbered_differs text.now shift recorded.now }
{
    let mut list = blank();
    let ran = run::run_numbers(text, shift, HIGHEST, &mut list, tok::start());
    run_differs(recorded, ran, &list)
}

// Whether a record's payload is read, and is as long as its places say.
fn is_read(text: &[u8], shift: u64, t: Token) -> bool
    ensures { result ≡ is_read text.now shift t }
{
    match run::payload_check(text, shift, t) {
        Ok(()) => {}
        Err(_) => return false,
    }
    let part = run::payload(text, shift, t);
    part.len() as u64 == t.payload_end - t.payload_start
}

// A kind's number; 255, which no kind has, for a token whose payload is not read.
fn kind(text: &[u8], shift: u64, t: Token) -> u64
    ensures { result ≡ kind_of text.now shift t }
{
    if is_read(text, shift, t) {
        let k = t.kind;
        return record::kind_number(k) as u64;
    }
    255
}

// A token after n others; one that is not recorded is seen by the number of tokens.
fn token_differs(text: &[u8], shift: u64, recorded: &[u64], n: usize, t: Token) -> Difference
    requires { n ≤ 4000 }
    ensures { result ≡ token_differs text.now shift recorded.now n t }
{
    let at = HEAD + 5 * n;
    if recorded.len() <= at {
        return Difference::Same;
    }
    let group = [
        kind(text, shift, t),
        t.start,
        t.end,
        t.payload_start,
        t.payload_end,
    ];
    numbers_differ(at as u32, front(rest(recorded, at), 5), &group)
}

// Whether the tokens have as many numbers as are recorded.
fn length_differs(tokens: &[u64], count: usize) -> Difference
    ensures { result ≡ length_differs (length tokens.now) count }
{
    if tokens.len() != count {
        return Difference::Length(tokens.len() as u64, count as u64);
    }
    Difference::Same
}

// The end of the calls, after n tokens, which are compared: the tokenizer's count and cursor are the answer's.
fn end_differs(
    text: &[u8],
    shift: u64,
    recorded: &[u64],
    n: usize,
    code: u64,
    place: u64,
    t: Tokenizer,
) -> Difference
    ensures { result ≡ end_differs text.now shift recorded.now n code place t }
{
    let head = [n as u64, code, place, t.count, t.at];
    onward(
        numbers_differ(0, front(recorded, HEAD), &head),
        length_differs(rest(recorded, HEAD), size(n)),
    )
}

// Call by call on a lent tokenizer, until the end, an error or a difference.
pub fn called(text: &[u8], shift: u64, recorded: &[u64]) -> Difference
    ensures { result ≡ called_differs text.now shift recorded.now }
{
    let mut t = tok::start();
    for n in 0..TOKENS {
        let s = lent::next_lent(text, shift, HIGHEST, t);
        let what = s.what;
        t = s.next;
        match what {
            What::Got(x) => {
                let d = token_differs(text, shift, recorded, n, x);
                match d {
                    Difference::Same => {}
                    _ => return d,
                }
            }
            What::Error(r) => {
                return end_differs(text, shift, recorded, n, rust_code(r), r.place, t);
            }
            What::End => return end_differs(text, shift, recorded, n, 0, 0, t),
        }
    }
    // more tokens than any recorded text has
    Difference::Length(recorded.len() as u64, ROOM as u64)
}
