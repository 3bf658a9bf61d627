// The ordinary texts on sheets of 1,024 texts each, and beside each sheet a row with the sums of their recorded answers.
ghost use Rattle.std.specs.Prelude.{◌≡◌, length};

use crate::say;
use recorded::Difference;

const TEXTS_TAKEN: usize = 60;

const MOST_TEXTS: u64 = 1024;

// A sheet, or the sums beside it, with nothing on it.
pub(crate) fn empty_row() -> [u64; 96]
    ensures { 96 ≡ length result }
{
    [0; 96]
}

// Whether a sheet holds what its row does; a difference is said, where it is to be.
pub(crate) fn compare(rt: &HostRuntime, said: bool, page: &mut [u64], row: &[u64]) -> bool {
    summed::as_row(page);
    let d = recorded::numbers_differ(0, row, page);
    match d {
        Difference::Same => true,
        _ => {
            if said {
                say::sum(rt, d);
            }
            false
        }
    }
}

// A sheet that is full is compared, and another is begun.
fn turn(rt: &HostRuntime, said: bool, page: &mut [u64], row: &mut [u64]) -> bool {
    if recorded::get(row, TEXTS_TAKEN) < MOST_TEXTS {
        return true;
    }
    let same = compare(rt, said, page, row);
    page.fill(0);
    row.fill(0);
    same
}

// A text on the sheet, and its recorded answer on the row.
pub(crate) fn add(
    rt: &HostRuntime,
    said: bool,
    text: &[u8],
    numbers: &[u64],
    page: &mut [u64],
    row: &mut [u64],
) -> bool {
    let same = turn(rt, said, page, row);
    sheet::take(text, page);
    summed::recorded_onto(text, numbers, row);
    same
}
