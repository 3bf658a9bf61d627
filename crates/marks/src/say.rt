// What this program prints with besides.
use reading::{Outcome, Tokenizer};
use record::Refusal;
use shown::{came, kind, number};
use system::say;

pub(crate) fn named(rt: &impl Print, name: &[u8]) {
    say(rt, name);
    say(rt, b"\n");
}

// A record's line, with its payload's places where it has one.
pub(crate) fn record_line(rt: &impl Print, k: u64, start: u64, end: u64, a: u64, b: u64) {
    say(rt, number(start).bytes());
    say(rt, b" ");
    say(rt, number(end).bytes());
    say(rt, b" ");
    say(rt, kind(k).bytes());
    if (a != start) | (b != start) {
        say(rt, b" payload ");
        say(rt, number(a).bytes());
        say(rt, b" ");
        say(rt, number(b).bytes());
    }
    say(rt, b"\n");
}

fn error_line(rt: &impl Print, r: Refusal, advances: u64) {
    let mut buffer = [0u8; 128];
    let to = text::error_line(
        &mut buffer,
        Some(0),
        u64::from(record::code_number(r.code)),
        r.place,
        advances,
    );
    say(rt, came(&buffer, to));
}

// How a run stopped, and its advances.
pub(crate) fn last_line(rt: &impl Print, how: Outcome, advances: u64) {
    match how {
        Outcome::Refused(r) => error_line(rt, r, advances),
        Outcome::Ended => {
            say(rt, b"end advances ");
            say(rt, number(advances).bytes());
            say(rt, b"\n");
        }
        Outcome::Running => say(rt, b"running\n"),
    }
}

// A tokenizer's cursor and count.
pub(crate) fn state(rt: &impl Print, t: Tokenizer) {
    say(rt, b"cursor ");
    say(rt, number(t.at).bytes());
    say(rt, b" count ");
    say(rt, number(t.count).bytes());
    say(rt, b"\n");
}
