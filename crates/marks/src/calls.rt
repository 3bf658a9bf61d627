// Single calls, run::next with a lent tokenizer: the end and an error are repeated, a cursor off the boundaries is refused.
use crate::say::{named, record_line, state};
use reading::{Tokenizer, What};
use record::Token;
use shown::refusal;
use system::say;

fn token(rt: &impl Print, t: Token) {
    record_line(
        rt,
        u64::from(record::kind_number(t.kind)),
        t.start,
        t.end,
        t.payload_start,
        t.payload_end,
    );
}

// A call, and the tokenizer after it.
fn call(rt: &impl Print, text: &[u8], t: Tokenizer) -> Tokenizer {
    let s = lent::next_lent(text, 0, u64::MAX, t);
    match s.what {
        What::Got(x) => token(rt, x),
        What::Error(r) => say(rt, refusal(r).bytes()),
        What::End => say(rt, b"end\n"),
    }
    s.next
}

// Three calls.
fn calls(rt: &impl Print, text: &[u8], t: Tokenizer) -> Tokenizer {
    let a = call(rt, text, t);
    let b = call(rt, text, a);
    call(rt, text, b)
}

pub(crate) fn to_the_end(rt: &impl Print) {
    named(rt, b"a ; call by call");
    let a = calls(rt, b"a ;", tok::start());
    state(rt, call(rt, b"a ;", a));
}

pub(crate) fn to_an_error(rt: &impl Print) {
    named(rt, b"a $ call by call");
    state(rt, calls(rt, b"a $", tok::start()));
}

pub(crate) fn off_the_boundaries(rt: &impl Print) {
    named(rt, b"a two-byte letter, from its middle");
    let t = Tokenizer {
        at: 1,
        count: 9,
        ..tok::start()
    };
    state(rt, call(rt, b"\xc3\xa9", t));
}
