// The Rust's recorded answers, asked again: standard input holds cases with the answers that the Rust gave (tools/record makes the file). Each text is
// asked in three forms, each expansion in one, and every number of an answer is compared. The texts are also taken on sheets, of 1,024 texts each, and every
// total is compared with the sum of the recorded answers. After the ordinary cases stand planted ones, whose recorded answers are wrong on purpose: for each
// of them, in each form, the difference is printed, so that the stored run shows that differences are seen. (The program filled shows that of the sums.)
//
// The file is a list of cases. A case is the length of its bytes and the length of its numbers, of two bytes each, little-endian, then both. A number
// is its digits to the base 128, the highest first, with 128 added to all but the last.
//   head       its bytes are `replay 2`, its numbers count the cases after it: texts, expansions, planted texts, planted expansions; so they stand
//   text       its bytes are the text; its numbers are the shift, then the answer: number of tokens, code (0 at the end), place, advances, cursor (with
//              no shift), and for each token kind, start, end, payload start, payload end
//   expansion  its bytes are the text; its numbers are idx0, place in the buffer, length of the buffer, then the answer: code (0 for none), place of the
//              refusal, where the expansion stands (0 nowhere, 1 in the text, 2 in the buffer), start, end, how many bytes of the buffer are written, and
//              the bytes of the expansion
// After the last case the file ends.
#![tactic(auto)]

mod file;
mod say;
mod sums;

use say::{Case, Form, Kind};

// The most bytes of a case, and the most numbers.
const BYTES: usize = 65536;

const NUMBERS: usize = 20006;

// A part of the file: so many cases of one kind.
#[derive(Clone, Copy)]
struct Cases {
    kind: Kind,
    planted: bool,
    count: u64,
}

fn main(rt: HostRuntime) {
    let mut bytes = [0u8; 64];
    let mut numbers = [0u64; 4];
    if is_head(&rt, &mut bytes, &mut numbers) {
        let _ = all(&rt, numbers);
        return;
    }
    file::is_end(&rt);
    say::say(&rt, b"the head is not that of a file of cases\n");
}

// Whether the first case is the head, with its four numbers.
fn is_head(rt: &HostRuntime, bytes: &mut [u8], numbers: &mut [u64]) -> bool {
    match file::next(rt, bytes, numbers) {
        Some(head) => file::is_mark(&bytes[..head.bytes]) & (head.numbers == 4),
        None => false,
    }
}

// The four parts of the file, after its head; none where one is not whole.
fn all(rt: &HostRuntime, counts: [u64; 4]) -> Option<()> {
    let [texts, expansions, planted_texts, planted_expansions] = counts;
    let mut page = sums::empty_row();
    let mut row = sums::empty_row();
    let a = part(rt, ordinary(Kind::Text, texts), &mut page, &mut row)?;
    let sums = sums::compare(rt, a, &mut page, &row);
    let b = part(
        rt,
        ordinary(Kind::Expansion, expansions),
        &mut page,
        &mut row,
    )?;
    part(rt, planted(Kind::Text, planted_texts), &mut page, &mut row)?;
    part(
        rt,
        planted(Kind::Expansion, planted_expansions),
        &mut page,
        &mut row,
    )?;
    finish(rt, texts, expansions, a & b & sums);
    Some(())
}

fn ordinary(kind: Kind, count: u64) -> Cases {
    Cases {
        kind,
        planted: false,
        count,
    }
}

fn planted(kind: Kind, count: u64) -> Cases {
    Cases {
        kind,
        planted: true,
        count,
    }
}

// Whether the cases of a part answer as they are recorded; none where one is not whole. Of the ordinary ones the first that differs is said. Page and row
// are the sheet that the ordinary texts are on, and the sums of their recorded answers.
fn part(rt: &HostRuntime, p: Cases, page: &mut [u64], row: &mut [u64]) -> Option<bool> {
    let mut same = true;
    for index in 0..p.count {
        let case = Case {
            kind: p.kind,
            planted: p.planted,
            said: p.planted | same,
            index,
        };
        same &= one(rt, case, page, row)?;
    }
    Some(same)
}

// The file has to end here.
fn finish(rt: &HostRuntime, texts: u64, expansions: u64, same: bool) {
    if file::is_end(rt) {
        say::number(rt, texts);
        say::say(rt, b" texts, ");
        say::number(rt, expansions);
        say::say(rt, b" expansions: ");
        if same {
            say::say(rt, b"no difference\n");
            return;
        }
        say::say(rt, b"the first difference stands above\n");
    }
}

// Whether the next case of the file answers as it is recorded; none where it is not whole.
fn one(rt: &HostRuntime, c: Case, page: &mut [u64], row: &mut [u64]) -> Option<bool> {
    let mut bytes = [0u8; BYTES];
    let mut numbers = [0u64; NUMBERS];
    let Some(read) = file::next(rt, &mut bytes, &mut numbers) else {
        file::is_end(rt);
        say::not_whole(rt, c);
        return None;
    };
    let text = &bytes[..read.bytes];
    let recorded = &numbers[..read.numbers];
    let sums = counted(rt, c, text, recorded, page, row);
    Some(!differs(rt, c, text, recorded) & sums)
}

// An ordinary text is taken on the sheet; whether no sheet differed.
fn counted(
    rt: &HostRuntime,
    c: Case,
    text: &[u8],
    numbers: &[u64],
    page: &mut [u64],
    row: &mut [u64],
) -> bool {
    match c.kind {
        Kind::Text if !c.planted => sums::add(rt, c.said, text, numbers, page, row),
        Kind::Text | Kind::Expansion => true,
    }
}

// Whether any form of a case answers otherwise than is recorded.
fn differs(rt: &HostRuntime, c: Case, bytes: &[u8], numbers: &[u64]) -> bool {
    match c.kind {
        Kind::Text => {
            let shift = recorded::get(numbers, 0);
            text_differs(rt, c, bytes, shift, recorded::rest(numbers, 1))
        }
        Kind::Expansion => {
            let d = asked::expansions::expanded(bytes, numbers);
            say::differs(rt, c, Form::Expand, d)
        }
    }
}

fn text_differs(rt: &HostRuntime, c: Case, text: &[u8], shift: u64, recorded: &[u64]) -> bool {
    let a = say::differs(
        rt,
        c,
        Form::Run,
        asked::texts::listed(text, shift, recorded),
    );
    let b = say::differs(
        rt,
        c,
        Form::Next,
        asked::texts::called(text, shift, recorded),
    );
    let d = say::differs(
        rt,
        c,
        Form::Numbers,
        asked::texts::numbered(text, shift, recorded),
    );
    a | b | d
}
