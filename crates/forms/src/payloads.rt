// Payloads and their check.
use crate::say::{bytes, checked};
use record::Kind;
use shown::number;
use system::say;

// The payload of a record of a text that starts with shift 7.
fn payload(rt: &impl Print, a: u64, b: u64) {
    let text = b"r\"\xc3\xa9\"";
    let t = record::token_of(Kind::RegexLiteral, 7, 12, a, b);
    say(rt, b"payload ");
    say(rt, number(a).bytes());
    say(rt, b" ");
    say(rt, number(b).bytes());
    say(rt, b":");
    bytes(rt, run::payload(text, 7, t));
    say(rt, b" ");
    checked(rt, run::payload_check(text, 7, t));
}

pub(crate) fn all(rt: &impl Print) {
    payload(rt, 9, 11);
    payload(rt, 9, 10);
    payload(rt, 6, 8);
    payload(rt, 11, 9);
    payload(rt, 12, 13);
}
