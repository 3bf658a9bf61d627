// What becomes of a text on a sheet, and what the sheet's numbers are.
ghost use Rattle.std.specs.Prelude.{◌≡◌};
ghost use Rattle.recorded.specs.Recorded.{differ};
ghost use Rattle.text.specs.Lay.{lay_all};
ghost use Rattle.shown.specs.Page.{changed_words, number_pieces, page_pieces, refusal_of, taken_words};

use record::Refusal;
use recorded::Difference;
use sheet::Taken;

// What became of a text, up to the refusal, if there is one: its line is the caller's.
#[tactic(auto, unfolding(text::specs::Bytes::bytes, crate::specs::Page::taken_words))]
pub fn taken(t: Taken) -> (&'static [u8], Option<Refusal>)
    ensures words { result.0.now ≡ taken_words t }
    ensures refusal { result.1 ≡ refusal_of t }
{
    match t {
        Taken::Whole => (b"taken\n", None),
        Taken::Tallied(r) => (b"tallied: ", Some(r)),
        Taken::Refused(r) => (b"refused: ", Some(r)),
    }
}

// One of a sheet's numbers, where it is not 0.
fn number_onto(out: &mut [u8], from: Option<usize>, i: usize, n: u64) -> Option<usize>
    ensures { (result ≡ (lay_all out.old from (number_pieces i n)).to) × (out.new ≡ (lay_all out.old from (number_pieces i n)).held) }
{
    if n == 0 {
        return from;
    }
    let spaced = text::put(out, from, b" ");
    let named = text::number(out, spaced, i as u64);
    let parted = text::put(out, named, b":");
    text::number(out, parted, n)
}

// The numbers of a sheet that are not 0, each after its index, are put where others came to. They take at most 2,296 bytes.
pub fn numbers(out: &mut [u8], from: Option<usize>, page: &[u64]) -> Option<usize>
    ensures { (result ≡ (lay_all out.old from (page_pieces page.now)).to) × (out.new ≡ (lay_all out.old from (page_pieces page.now)).held) }
{
    let mut came = text::put(out, from, b" ");
    for (i, n) in page.iter().enumerate() {
        came = number_onto(out, came, i, *n);
    }
    text::put(out, came, b"\n")
}

// Whether a sheet is what it was.
#[tactic(auto, unfolding(text::specs::Bytes::bytes, crate::specs::Page::changed_words))]
pub fn unchanged(before: &[u64], after: &[u64]) -> &'static [u8]
    ensures { result.now ≡ changed_words (differ 0 before.now after.now) }
{
    match recorded::numbers_differ(0, before, after) {
        Difference::Same => b"  unchanged\n",
        _ => b"  changed\n",
    }
}
