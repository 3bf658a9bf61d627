// A sheet filled to its 1,024 texts, four of replay's by turns, with the answers that the Rust gave to them on a row beside it; the text after them; and
// answers that are wrong on purpose, so that the stored run shows that differences are seen. (The program replay holds all texts of its file against sheets.)
#![tactic(auto)]

mod say;

use say::{difference, taken};
use shown::came;
use shown::page::{numbers, unchanged};
use system::say;

// The number of an answer that is made wrong, if one is: one more than it is.
fn wrong(answer: &mut [u64], at: Option<usize>) {
    if let Some(n) = at.and_then(|i| answer.get_mut(i)) {
        *n = n.wrapping_add(1);
    }
}

// A text on the sheet, and its recorded answer on the row, where the number at a place is wrong.
fn both(text: &[u8], answer: &mut [u64], at: Option<usize>, page: &mut [u64], row: &mut [u64]) {
    wrong(answer, at);
    sheet::take(text, page);
    summed::recorded_onto(text, answer, row);
}

// A text by turns, with its recorded answer.
fn one(i: u64, at: Option<usize>, page: &mut [u64], row: &mut [u64]) {
    match i % 4 {
        // an attribute, after which a character of two bytes is dropped
        0 => {
            let mut answer = [0u64, 1, 0, 0, 5, 6, 53, 0, 4, 0, 4];
            both(b"#![]\xc3\xa9", &mut answer, at, page, row);
        }
        // an attempt at an attribute that fails
        1 => {
            let mut answer = [0u64, 1, 0, 0, 3, 2, 34, 0, 1, 0, 0];
            both(b"#\n", &mut answer, at, page, row);
        }
        // a comment that does not end
        2 => {
            let mut answer = [0u64, 0, 10, 0, 3, 3];
            both(b"/*/", &mut answer, at, page, row);
        }
        // whitespace, an identifier and a comment, recorded with a shift, which a sheet does not have
        _ => {
            let mut answer = [100u64, 1, 0, 0, 6, 6, 15, 101, 102, 101, 102];
            both(b"\na//a/", &mut answer, at, page, row);
        }
    }
}

// 1,023 texts, and their recorded answers as they are.
fn fill(page: &mut [u64], row: &mut [u64]) {
    for i in 0..1023 {
        one(i, None, page, row);
    }
}

// A sheet beside the sums of the recorded answers.
fn compare(rt: &impl Print, page: [u64; 96], row: [u64; 96]) {
    let mut joined = page;
    summed::as_row(&mut joined);
    difference(rt, recorded::numbers_differ(0, &row, &joined));
}

// The answer of the last of 1,024 texts is wrong on purpose, in the number at a place.
fn planted(rt: &impl Print, name: &[u8], last: u64, at: usize) {
    let mut page = [0; 96];
    let mut row = [0; 96];
    fill(&mut page, &mut row);
    one(last, Some(at), &mut page, &mut row);
    say(rt, name);
    compare(rt, page, row);
}

// A text for a sheet that is full: what is answered, and whether the sheet is what it was.
fn offered(rt: &impl Print, name: &[u8], text: &[u8], page: [u64; 96]) {
    let mut after = page;
    say(rt, name);
    taken(rt, sheet::take(text, &mut after));
    say(rt, unchanged(&page, &after));
}

fn all_planted(rt: &impl Print) {
    planted(rt, b"planted, a kind: ", 3, 6);
    planted(rt, b"planted, an end: ", 1, 8);
    planted(rt, b"planted, advances: ", 3, 4);
    planted(rt, b"planted, a code: ", 2, 2);
}

fn main(rt: HostRuntime) {
    let mut page = [0; 96];
    let mut row = [0; 96];
    fill(&mut page, &mut row);
    one(1023, None, &mut page, &mut row);
    say(&rt, b"1024 texts, beside their recorded answers: ");
    compare(&rt, page, row);
    let mut line = [0u8; 4096];
    let to = numbers(&mut line, Some(0), &page);
    say(&rt, came(&line, to));
    offered(&rt, b"a 1025th: ", b"a", page);
    offered(&rt, b"a 1025th that is ill-formed: ", b"a\xff", page);
    all_planted(&rt);
}
