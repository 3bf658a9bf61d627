// The line and the column of every place of small texts, and back. The file `stdout` holds what 02, E1 says of them.
#![tactic(auto)]

use place::Place;
use record::Refusal;
use shown::{number, refusal};
use system::say;

fn line_and_column(rt: &impl Print, line: u64, column: u64) {
    say(rt, b"line ");
    say(rt, number(line).bytes());
    say(rt, b" column ");
    say(rt, number(column).bytes());
}

// The place of a line and a column, after a word for it.
fn located(rt: &impl Print, word: &[u8], l: Result<u64, Refusal>) {
    match l {
        Ok(at) => {
            say(rt, word);
            say(rt, number(at).bytes());
            say(rt, b"\n");
        }
        Err(r) => say(rt, refusal(r).bytes()),
    }
}

fn answer(rt: &impl Print, text: &[u8], p: Place) {
    line_and_column(rt, p.line, p.column);
    located(rt, b" back ", place::place_at(text, p.line, p.column));
}

fn there(rt: &impl Print, text: &[u8], at: u64) {
    say(rt, b"place ");
    say(rt, number(at).bytes());
    say(rt, b" ");
    match place::line_column(text, at) {
        Ok(p) => answer(rt, text, p),
        Err(r) => say(rt, refusal(r).bytes()),
    }
}

// Every place of a text, its end and one beyond it, with the place that its line and column lead back to.
fn places(rt: &impl Print, name: &[u8], text: &[u8]) {
    say(rt, name);
    for at in 0..text.len() + 2 {
        there(rt, text, at as u64);
    }
}

fn back(rt: &impl Print, text: &[u8], line: u64, column: u64) {
    line_and_column(rt, line, column);
    say(rt, b" ");
    located(rt, b"place ", place::place_at(text, line, column));
}

// The three ends of a line.
fn single_ends(rt: &impl Print) {
    places(rt, b"LF\n", b"a\nb");
    places(rt, b"CR LF\n", b"a\r\nb");
    places(rt, b"lone CR\n", b"a\rb");
}

// What is no CR LF.
fn odd_ends(rt: &impl Print) {
    places(rt, b"CR at the end\n", b"a\r");
    places(rt, b"LF CR\n", b"a\n\rb");
    places(rt, b"mixed\n", b"\r\r\n\n\xc3\xa9\r\na\r");
}

// Of one unit, and of two.
fn one_unit(rt: &impl Print) {
    places(rt, b"e with an acute\n", b"a\xc3\xa9b");
    places(rt, b"U+FFFF\n", b"\xef\xbf\xbfb");
}

fn two_units(rt: &impl Print) {
    places(rt, b"U+10000\n", b"\xf0\x90\x80\x80b");
    places(rt, b"U+1F600\n", b"a\n\xf0\x9f\x98\x80\n");
}

fn no_text(rt: &impl Print) {
    places(rt, b"empty\n", b"");
    places(rt, b"ill-formed\n", b"\xc3\xa9\xff");
    back(rt, b"\xc3\xa9\xff", 0, 0);
}

// A column beyond a line that each end ends, a line beyond the last.
fn beyond(rt: &impl Print, text: &[u8]) {
    for line in 0..4 {
        back(rt, text, line, 99);
    }
    back(rt, text, 4, 0);
    back(rt, text, 18446744073709551615, 18446744073709551615);
}

// Before, inside and after a pair.
fn around(rt: &impl Print, text: &[u8]) {
    for column in 1..6 {
        back(rt, text, 0, column);
    }
}

fn main(rt: HostRuntime) {
    single_ends(&rt);
    odd_ends(&rt);
    one_unit(&rt);
    two_units(&rt);
    no_text(&rt);
    say(&rt, b"back\n");
    beyond(&rt, b"ab\r\nc\rd\ne");
    around(&rt, b"x\xf0\x9f\x98\x80y");
}
