// LTK files.
use crate::say::{bytes, record_line};
use record::Refusal;
use shown::{number, refusal};
use system::say;

fn answer(rt: &impl Print, a: Result<usize, Refusal>) {
    match a {
        Ok(n) => {
            say(rt, b"done ");
            say(rt, number(n as u64).bytes());
            say(rt, b"\n");
        }
        Err(r) => say(rt, refusal(r).bytes()),
    }
}

// A text's LTK file, by ltk::write of a lent list, and the file's first record, by ltk::read into one.
fn file(rt: &impl Print, text: &[u8]) {
    let mut buffer = [0u8; 27];
    let packed = lent::pack_listed(text, &mut buffer);
    say(rt, b"file");
    bytes(rt, &buffer);
    say(rt, b" ");
    let written = packed.written;
    answer(rt, written);
    let mut records = [0u64; 10];
    let read = lent::read_listed(&buffer, &mut records);
    record_line(rt, records[0], records[1], records[2]);
    answer(rt, read);
}

// Two records fill the buffer, one leaves a rest that is no file, three have no room.
pub(crate) fn written(rt: &impl Print) {
    file(rt, b"ab;");
    file(rt, b"ab");
    file(rt, b"ab;;");
}

fn check(rt: &impl Print, bytes_of: &[u8]) {
    answer(rt, ltk::check(bytes_of));
}

// Each refusal of a file, and a file of no records.
pub(crate) fn checked(rt: &impl Print) {
    check(rt, b"LT");
    check(rt, b"LTK\x01\x00");
    check(rt, b"LTK\x02\x00\x00\x00\x00\x00");
    check(rt, b"LTK\x01\x00\x01\x00\x00\x00");
    check(
        rt,
        b"LTK\x01\x00\x01\x00\x00\x00\x36\x00\x00\x00\x00\x01\x00\x00\x00",
    );
    check(rt, b"LTK\x01\x00\x00\x00\x00\x00");
}
