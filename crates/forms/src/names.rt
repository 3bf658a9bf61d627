// Every kind and every refusal, by number.
use shown::{code, kind, number};
use system::say;

fn kinds(rt: &impl Print) {
    for n in 0..55 {
        say(rt, number(n).bytes());
        say(rt, b" ");
        say(rt, kind(n).bytes());
        say(rt, b"\n");
    }
}

fn codes(rt: &impl Print) {
    for n in 0..31 {
        say(rt, number(n).bytes());
        say(rt, b" ");
        say(rt, code(n).bytes());
        say(rt, b"\n");
    }
}

// The numbers after the last, and 0 of the refusals, have no name.
pub(crate) fn all(rt: &impl Print) {
    say(rt, b"kinds\n");
    kinds(rt);
    say(rt, b"refusals\n");
    codes(rt);
}
