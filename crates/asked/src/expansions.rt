// A recorded expansion, made in a painted buffer; answered is the first difference from what is recorded.
ghost use Rattle.std.specs.Prelude.{◌≡◌, []};
ghost use Rattle.escapes.specs.Answers.{applied, part_check};
ghost use Rattle.asked.specs.Answers.{answer_differs};
ghost use Rattle.asked.specs.Expansions.{expand_differs, expanded_by, expanded_differs, stands_by, written};

use crate::onward;
use escapes::{Held, Part};
use record::Refusal;
use recorded::{Difference, bytes_differ, front, get, numbers_differ, rest};

// The paint: no text has this byte, so no expansion has it.
const PAINT: u8 = 255;

// The numbers that are asked, and those of the answer before the expansion's bytes.
const ASKED: usize = 3;

const HEAD: usize = 6;

// The most bytes of a buffer.
const ROOM: usize = 4096;

// How many bytes of a buffer are not paint.
fn written(buffer: &[u8]) -> u64
    ensures { result ≡ written buffer.now }
{
    buffer.iter().filter(|b| **b != PAINT).count() as u64
}

// Where an expansion stands: 1 in the text, 2 in the buffer; 3 where its range is refused.
fn stands<'a>(text: &'a [u8], buffer: &'a [u8], part: Part) -> u64
    ensures { result ≡ stands_by (part_check text.now buffer.now part) part }
{
    match escapes::expansion_check(text, buffer, part) {
        Ok(()) => {}
        Err(_) => return 3,
    }
    let h = part.held;
    match h {
        Held::Text => 1,
        Held::Buffer => 2,
    }
}

// The numbers of an answer, and then the bytes of the expansion.
fn answer_differs(recorded: &[u64], head: &[u64], answered: &[u8]) -> Difference
    ensures { result ≡ answer_differs 6 recorded.now head.now answered.now }
{
    onward(
        numbers_differ(0, front(recorded, HEAD), head),
        bytes_differ(6, rest(recorded, HEAD), answered),
    )
}

fn refusal_differs(text: &[u8], recorded: &[u64], r: Refusal, buffer: &[u8]) -> Difference
    ensures { result ≡ expanded_by text.now recorded.now buffer.now (Err r) }
{
    let k = r.code;
    let head = [
        record::code_number(k) as u64,
        r.place,
        0,
        0,
        0,
        written(buffer),
    ];
    answer_differs(recorded, &head, &[])
}

fn part_differs<'a>(text: &'a [u8], recorded: &[u64], part: Part, buffer: &'a [u8]) -> Difference
    ensures { result ≡ expanded_by text.now recorded.now buffer.now (Ok part) }
{
    let head = [
        0,
        0,
        stands(text, buffer, part),
        part.start as u64,
        part.end as u64,
        written(buffer),
    ];
    answer_differs(recorded, &head, escapes::expansion(text, buffer, part))
}

// The text is expanded into the buffer from a place on.
fn expand(text: &[u8], idx0: u64, place: usize, recorded: &[u64], buffer: &mut [u8]) -> Difference
    ensures { result ≡ expand_differs text.now recorded.now (applied text.now idx0 buffer.old place) }
{
    match escapes::apply_string_escapes(text, idx0, buffer, place) {
        Err(r) => refusal_differs(text, recorded, r, buffer),
        Ok(part) => part_differs(text, recorded, part, buffer),
    }
}

pub fn expanded(text: &[u8], recorded: &[u64]) -> Difference
    ensures { result ≡ expanded_differs text.now recorded.now }
{
    let mut buffer = [PAINT; ROOM];
    let room = get(recorded, 2) as usize;
    if ROOM < room {
        return Difference::Length(room as u64, ROOM as u64);
    }
    expand(
        text,
        get(recorded, 0),
        get(recorded, 1) as usize,
        rest(recorded, ASKED),
        &mut buffer[0..room],
    )
}
