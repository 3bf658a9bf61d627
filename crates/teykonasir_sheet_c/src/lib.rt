// The sheet for C programs, in an archive of its own: beside it in one archive the reading would have two callers, and `teyk_run` would be slower
// (docs/BENCH.md). include/teykonasir.h says the function whole.
#![tactic(auto)]

ghost use Rattle.std.specs.Prelude.{◌≡◌};
ghost use Rattle.teykonasir_sheet.specs.Calls.{sheet_call};

// A sheet of 96 numbers takes a text: the answer is code, place.
#[unsafe(no_mangle)]
pub extern "C" fn teyk_sheet_take(text: &[u8], sheet: &mut [u64], answer: &mut [u64]) -> u64
    ensures { (result ≡ (sheet_call text.now sheet.old answer.old).result)
        × (sheet.new ≡ (sheet_call text.now sheet.old answer.old).lent)
        × (answer.new ≡ (sheet_call text.now sheet.old answer.old).numbers) }
{
    teykonasir_sheet::teyk_sheet_take(text, sheet, answer)
}
