// What this program prints with besides.
use record::Refusal;
use recorded::Difference;
use sheet::Taken;
use shown::number;
use system::say;

// A refusal by its number, and its place.
fn refusal(rt: &impl Print, r: Refusal) {
    say(rt, number(u64::from(record::code_number(r.code))).bytes());
    say(rt, b" at ");
    say(rt, number(r.place).bytes());
    say(rt, b"\n");
}

// What became of a text.
pub(crate) fn taken(rt: &impl Print, t: Taken) {
    let (words, refused) = shown::page::taken(t);
    say(rt, words);
    if let Some(r) = refused {
        refusal(rt, r);
    }
}

// Where a sheet differs from the sums of recorded answers.
pub(crate) fn difference(rt: &impl Print, d: Difference) {
    match d {
        Difference::Same => say(rt, b"no difference\n"),
        Difference::Length(_, _) => say(rt, b"not as many numbers\n"),
        Difference::Number(i, r, a) => {
            say(rt, b"number ");
            say(rt, number(i as u64).bytes());
            say(rt, b": recorded ");
            say(rt, number(r).bytes());
            say(rt, b", on the sheet ");
            say(rt, number(a).bytes());
            say(rt, b"\n");
        }
    }
}
