// Numbers that no sheet has, and too few of them.
use crate::taken;
use shown::page::unchanged;
use system::say;

// Number i of a sheet that has taken so many texts.
fn holding(texts: u64, i: usize, n: u64) -> [u64; 96] {
    let mut page = [0; 96];
    page[60] = texts;
    if let Some(x) = page.get_mut(i) {
        *x = n;
    }
    page
}

// A text for a sheet: what is answered, and whether the sheet is what it was.
fn offered(rt: &impl Print, name: &[u8], text: &[u8], page: [u64; 96]) {
    let mut after = page;
    say(rt, name);
    taken(rt, sheet::take(text, &mut after));
    say(rt, unchanged(&page, &after));
}

// A sheet without its last number.
fn short(rt: &impl Print) {
    let before = [0u64; 95];
    let mut page = before;
    say(rt, b"95 numbers: ");
    taken(rt, sheet::take(b"a", &mut page));
    say(rt, unchanged(&before, &page));
}

// 2^50 for each text taken is the most that a sheet holds.
pub(crate) fn refusals(rt: &impl Print) {
    offered(
        rt,
        b"3 texts and 3 * 2^50: ",
        b"a",
        holding(3, 58, 3377699720527872),
    );
    offered(
        rt,
        b"and one more: ",
        b"a",
        holding(3, 58, 3377699720527873),
    );
    offered(rt, b"a tally: ", b"a", holding(3, 95, 3377699720527873));
    offered(rt, b"no text and a 1: ", b"a", holding(0, 15, 1));
    short(rt);
}
