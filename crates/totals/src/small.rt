// Seventeen texts: what each adds to an empty sheet, by index, and then their sum; of the depths (61) the greatest.
use crate::taken;
use shown::came;
use system::say;

// The sheet's numbers that are not 0.
fn numbers(rt: &impl Print, page: &[u64]) {
    let mut line = [0u8; 4096];
    let to = shown::page::numbers(&mut line, Some(0), page);
    say(rt, came(&line, to));
}

fn adds(rt: &impl Print, text: &[u8], sum: &mut [u64]) {
    let mut page = [0; 96];
    say(rt, text);
    say(rt, b" ");
    taken(rt, sheet::take(text, &mut page));
    numbers(rt, &page);
    sheet::take(text, sum);
}

// Tokens with whitespace and comments between them.
fn plain(rt: &impl Print, sum: &mut [u64]) {
    adds(rt, b"", sum);
    adds(rt, b"grammar;", sum);
    adds(rt, b"pub A: B = { <n:C> => n };", sum);
    adds(rt, b" // a \xc3\xa9", sum);
    adds(rt, b"a/* b /* c */ */ \"d\"", sum);
    adds(rt, b"use a/* b /* c /* d */ */ */;", sum);
}

// What a hash starts: attributes, with and without a character after them, and attempts that fail.
fn sharp(rt: &impl Print, sum: &mut [u64]) {
    adds(rt, b"#![a]\xc3\xa9 b", sum);
    adds(rt, b"#![a]", sum);
    adds(rt, b"#x", sum);
    adds(rt, b"#![x", sum);
}

// Literals, two of which do not end, and other errors.
fn errors(rt: &impl Print, sum: &mut [u64]) {
    adds(rt, b"r#\"a\"# 'b' 'c", sum);
    adds(rt, b"\"a", sum);
    adds(rt, b"r#\"a", sum);
    adds(rt, b"a .", sum);
    adds(rt, b"a $", sum);
    adds(rt, b"a => {", sum);
    adds(rt, b"a /* b", sum);
}

pub(crate) fn seventeen(rt: &impl Print) {
    let mut sum = [0; 96];
    plain(rt, &mut sum);
    sharp(rt, &mut sum);
    errors(rt, &mut sum);
    say(rt, b"the sum\n");
    numbers(rt, &sum);
}
