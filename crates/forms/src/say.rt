// What this program prints with besides.
use record::Refusal;
use shown::{came, number, refusal};
use system::say;

pub(crate) fn checked(rt: &impl Print, c: Result<(), Refusal>) {
    match c {
        Ok(()) => say(rt, b"passed\n"),
        Err(r) => say(rt, refusal(r).bytes()),
    }
}

// A record's line.
pub(crate) fn record_line(rt: &impl Print, k: u64, start: u64, end: u64) {
    let mut buffer = [0u8; 128];
    let to = text::token_line(&mut buffer, Some(0), k, start, end);
    say(rt, came(&buffer, to));
}

// Bytes, each as a number.
pub(crate) fn bytes(rt: &impl Print, words: &[u8]) {
    for x in words {
        say(rt, b" ");
        say(rt, number(u64::from(*x)).bytes());
    }
}
