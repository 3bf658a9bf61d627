// String expansion.
use crate::say::{bytes, checked};
use escapes::{Held, Part};
use shown::refusal;
use system::say;

// An expansion with idx0 0 into a buffer of sixteen bytes, from a place on.
fn expansion(rt: &impl Print, text: &[u8], place: usize) {
    say(rt, text);
    let mut buffer = [0u8; 16];
    match escapes::apply_string_escapes(text, 0, &mut buffer, place) {
        Ok(part) => {
            say(rt, b" bytes");
            bytes(rt, escapes::expansion(text, &buffer, part));
            say(rt, b"\n");
        }
        Err(r) => {
            say(rt, b" ");
            say(rt, refusal(r).bytes());
        }
    }
}

pub(crate) fn escaped(rt: &impl Print) {
    expansion(rt, b"\\x7F", 0);
    expansion(rt, b"\\xFF", 0);
    expansion(rt, b"\\x", 0);
    expansion(rt, b"\\x4", 0);
    expansion(rt, b"\\", 0);
}

// Without a backslash the buffer is not asked; three bytes have room from 13 on, not from 14 on.
pub(crate) fn rooms(rt: &impl Print) {
    expansion(rt, b"abc", 99);
    expansion(rt, b"a\\nb", 13);
    expansion(rt, b"a\\nb", 14);
}

// The check of a part that the reader is asked for.
fn part_check(rt: &impl Print, start: usize, end: usize) {
    let held = Held::Text;
    checked(
        rt,
        escapes::expansion_check(b"abc", b"", Part { held, start, end }),
    );
}

pub(crate) fn parts(rt: &impl Print) {
    say(rt, b"part 1 3 of abc: ");
    part_check(rt, 1, 3);
    say(rt, b"part 2 4 of abc: ");
    part_check(rt, 2, 4);
}
