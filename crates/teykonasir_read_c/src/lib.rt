// A run that tells the depths of comments, in either reading, for C programs, in an archive of its own: beside it in one archive the reading would have two callers, and
// `teyk_run` would be slower (docs/BENCH.md). include/teykonasir.h says the function whole.
#![tactic(auto)]

ghost use Rattle.std.specs.Prelude.{◌≡◌};
ghost use Rattle.teykonasir_read.specs.Calls.{read_call};

// A run from the start, in a reading that is chosen by its number, into records of nine numbers: the answer is code, place, records, advances, depth of the
// last gap, and one number not told yet. A number that names no reading is refused before the text is looked at.
#[unsafe(no_mangle)]
pub extern "C" fn teyk_read(
    text: &[u8],
    reading: u64,
    shift: u64,
    limit: u64,
    records: &mut [u64],
    answer: &mut [u64],
) -> u64
    ensures { (result ≡ (read_call text.now reading shift limit records.old answer.old).result)
        × (records.new ≡ (read_call text.now reading shift limit records.old answer.old).lent)
        × (answer.new ≡ (read_call text.now reading shift limit records.old answer.old).numbers) }
{
    teykonasir_read::teyk_read(text, reading, shift, limit, records, answer)
}
