// Whole runs.
use crate::say::{last_line, named, record_line};

const MOST: u64 = u64::MAX;

// The lines of count records, each a group of five numbers.
fn records(rt: &impl Print, list: &[u64], count: usize) {
    for r in list.chunks_exact(5).take(count) {
        if let [kind, start, end, a, b] = r {
            record_line(rt, *kind, *start, *end, *a, *b);
        }
    }
}

// A text by the name it is printed with, its tokens with their payloads, and how the run stopped: run::run into a lent list.
fn example(rt: &impl Print, name: &[u8], text: &[u8], shift: u64, limit: u64) {
    named(rt, name);
    let mut list = [0u64; 64];
    let ran = lent::run_listed(text, shift, limit, &mut list, tok::start());
    records(rt, &list, ran.stored);
    last_line(rt, ran.how, ran.advances);
}

// The same with room for two records: run::run_numbers.
fn in_two(rt: &impl Print, name: &[u8], text: &[u8]) {
    named(rt, name);
    let mut list = [0u64; 14];
    let ran = run::run_numbers(text, 0, MOST, &mut list, tok::start());
    records(rt, &list, ran.stored);
    last_line(rt, ran.how, ran.advances);
}

fn in_none(rt: &impl Print, name: &[u8], text: &[u8]) {
    named(rt, name);
    let mut list = [0u64; 4];
    let ran = run::run_numbers(text, 0, MOST, &mut list, tok::start());
    last_line(rt, ran.how, ran.advances);
}

// A text that is printed as it is.
fn whole(rt: &impl Print, text: &[u8]) {
    example(rt, text, text, 0, MOST);
}

// The table of marked examples, in its order.
pub(crate) fn marked(rt: &impl Print) {
    example(rt, b"empty", b"", 0, MOST);
    whole(rt, b"##");
    example(rt, b"#![ newline x", b"#![\nx", 0, MOST);
    whole(rt, b"r#_");
    whole(rt, b"r##ab<");
    whole(rt, b"r#1");
    whole(rt, b"r#\"a\"b\"#");
}

pub(crate) fn marked_code(rt: &impl Print) {
    whole(rt, b"=>r#\"a\"b\"#;");
    whole(rt, b"=>'a'");
    whole(rt, b"=>'a';");
    whole(rt, b"/*/");
    whole(rt, b"/*/**/*/");
    whole(rt, b"=>?");
}

// The examples that are run only, and the listing's text.
pub(crate) fn run_only(rt: &impl Print) {
    whole(rt, b"''");
    example(rt, b". with shift 7", b".", 7, MOST);
    whole(rt, b"#![a]xb=>c;");
}

// Half a symbol, and a character that starts nothing (02, E3).
pub(crate) fn unknown(rt: &impl Print) {
    whole(rt, b"~");
    whole(rt, b"a->-");
    whole(rt, b"/");
    whole(rt, b"@x");
    whole(rt, b"=>@x");
    whole(rt, b"\xe2\x82\xac");
}

// What stops a run besides the text: the work limit, the room, the shift; and ill-formed UTF-8.
pub(crate) fn limits(rt: &impl Print) {
    example(rt, b"a, limit 0", b"a", 0, 0);
    example(rt, b"$, limit 0", b"$", 0, 0);
    example(rt, b"empty, limit 0", b"", 0, 0);
    example(rt, b"a b, limit 2", b"a b", 0, 2);
}

pub(crate) fn rooms(rt: &impl Print) {
    in_two(rt, b"a b c, room 2", b"a b c");
    in_two(rt, b"a b, room 2", b"a b");
    in_none(rt, b"a, room 0", b"a");
    in_none(rt, b"empty, room 0", b"");
}

pub(crate) fn shifts(rt: &impl Print) {
    example(rt, b"a, shift 2^64 - 1", b"a", MOST, MOST);
    example(rt, b"empty, shift 2^64 - 1", b"", MOST, MOST);
    example(rt, b"a, shift 2^64 - 2", b"a", MOST - 1, MOST);
    example(rt, b"a and the byte 255, shift 7", b"a\xff", 7, MOST);
}
