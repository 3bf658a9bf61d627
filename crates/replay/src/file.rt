// The file: its bytes, and the numbers that they make.
ghost use Rattle.std.specs.Prelude.{◌+◌, ◌≤◌, ◌<◌, length, IfSome};

use crate::say::say;

// The number of two bytes.
fn two(s: &[u8], p: usize) -> usize
    requires { p + 2 ≤ length s.now }
    ensures { result < 65536 }
{
    usize::from(u16::from_le_bytes([s[p], s[p + 1]]))
}

// Whether the file ends here: one read more answers 0 at the end alone.
pub(crate) fn is_end(rt: &HostRuntime) -> bool {
    let mut more = [0u8; 1];
    match system::read_once(&mut rt.stdin(), &mut more) {
        Err(_) => {
            say(rt, b"a read failed\n");
            false
        }
        Ok(0) => true,
        Ok(_) => {
            say(rt, b"the file goes on\n");
            false
        }
    }
}

// Whether bytes are the head's.
pub(crate) fn is_mark(s: &[u8]) -> bool {
    s == b"replay 2".as_slice()
}

// A case that is read: how many bytes it has, and how many numbers.
#[derive(Clone, Copy)]
pub struct Read {
    pub bytes: usize,
    pub numbers: usize,
}

// Reads the bytes of the next case into a buffer, and then its numbers; none where it is not whole.
pub(crate) fn next(rt: &HostRuntime, buffer: &mut [u8], list: &mut [u64]) -> Option<Read>
    ensures { IfSome result (λ r. (r.bytes ≤ length buffer.new) × (r.numbers ≤ length list.new)) }
{
    let lengths = fetch(rt, buffer)?;
    let bytes = lengths.bytes;
    let numbers = decode(&buffer[bytes..lengths.end], list)?;
    Some(Read { bytes, numbers })
}

// Where in the buffer the bytes of a case end, and where its numbers.
#[derive(Clone, Copy)]
pub struct Lengths {
    pub bytes: usize,
    pub end: usize,
}

// Reads the next case into the buffer. One whose read failed is not whole, as one that the end cuts.
fn fetch(rt: &HostRuntime, buffer: &mut [u8]) -> Option<Lengths>
    ensures { IfSome result (λ l. (l.bytes ≤ l.end) × (l.end ≤ length buffer.new)) }
{
    let mut head = [0u8; 4];
    let n = system::read_all(&mut rt.stdin(), &mut head).unwrap_or(0);
    if n < 4 {
        return None;
    }
    let bytes = two(&head, 0);
    fill(rt, buffer, bytes, bytes + two(&head, 2))
}

// Reads the bytes and the numbers of a case, to an end.
fn fill(rt: &HostRuntime, buffer: &mut [u8], bytes: usize, end: usize) -> Option<Lengths>
    requires { bytes ≤ end }
    ensures { IfSome result (λ l. (l.bytes ≤ l.end) × (l.end ≤ length buffer.new)) }
{
    if buffer.len() < end {
        return None;
    }
    let n = system::read_all(&mut rt.stdin(), &mut buffer[0..end]).unwrap_or(0);
    if n < end {
        return None;
    }
    Some(Lengths { bytes, end })
}

// A number at a place, where the list has it.
fn put(list: &mut [u64], at: usize, n: u64) {
    if at < list.len() {
        list[at] = n;
    }
}

// Above this one digit more is too much for a number.
const MOST: u64 = 144115188075855871;

// The numbers that the bytes make, and how many they are; none where there is no number, one is too large, or they are too many.
fn decode(bytes: &[u8], out: &mut [u64]) -> Option<usize>
    ensures { IfSome result (λ n. n ≤ length out.new) }
{
    let mut n: usize = 0;
    let mut v: u64 = 0;
    for byte in bytes {
        let b = u64::from(*byte);
        if MOST < v {
            return None;
        }
        v = 128 * v + b % 128;
        if b < 128 {
            put(out, n, v);
            n += 1;
            v = 0;
        }
    }
    if n == 0 || out.len() < n {
        return None;
    }
    Some(n)
}
