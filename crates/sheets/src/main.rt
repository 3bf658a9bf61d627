// The program behind the command `sheet`: its first argument is the command's name, the others are files. It reads one after another into one
// buffer, has each taken onto a sheet, and writes the table; all that talks to the system stands here and in `system`.
#![tactic(auto)]

ghost use Rattle.std.specs.Prelude.{◌≡◌, length};

use system::{Stopped, fault};

// Room for the table, and for what is said of one file.
const SAID: usize = 8192;

// Room for the longest file, and one byte more, so that a longer one shows.
fn file_room() -> [u8; 1048577]
    ensures { 1048577 ≡ length result }
{
    [0; 1048577]
}

// A text is taken onto the sheet, what is said of it is written, and answered whether it was refused.
fn take_text(
    rt: &HostRuntime,
    name: &[u8],
    text: &[u8],
    sheet: &mut [u64],
) -> Result<bool, Stopped> {
    let mut err = [0u8; SAID];
    let filed = filing::take_file(name, text, sheet, &mut err);
    system::write_err(rt, &err, filed.err)?;
    Ok(filed.refused)
}

// So is the file that the i-th argument names; one that cannot be read is neither taken nor refused.
fn take_named(
    rt: &HostRuntime,
    name: &[u8],
    i: usize,
    file: &mut [u8],
    sheet: &mut [u64],
) -> Result<bool, Stopped> {
    match system::read_named(rt, i, name, file) {
        Err(why) => {
            fault(rt, name, why);
            Ok(false)
        }
        Ok(n) => take_text(rt, name, &file[..n], sheet),
    }
}

// So is it of the i-th argument.
fn take_argument(
    rt: &HostRuntime,
    i: usize,
    file: &mut [u8],
    sheet: &mut [u64],
) -> Result<bool, Stopped> {
    let mut name = system::name_room();
    match system::argument(rt, i, &mut name) {
        Err(why) => {
            fault(rt, b"a file's name", why);
            Ok(false)
        }
        Ok(n) => take_named(rt, &name[..n], i, file, sheet),
    }
}

// So are the files that the arguments from the third on name; without any, standard input. Answers how many were refused.
fn take_all(
    rt: &HostRuntime,
    count: usize,
    file: &mut [u8],
    sheet: &mut [u64],
) -> Result<u64, Stopped> {
    if count < 3 {
        return Ok(u64::from(take_named(rt, b"-", 2, file, sheet)?));
    }
    let mut refused: u64 = 0;
    for i in 2..count {
        let one = u64::from(take_argument(rt, i, file, sheet)?);
        refused = refused.saturating_add(one);
    }
    Ok(refused)
}

// The table of the sheet is written.
fn write_table(rt: &HostRuntime, sheet: &[u64], refused: u64) -> Result<(), Stopped> {
    let mut out = [0u8; SAID];
    let came = table::table(&mut out, Some(0), sheet, refused);
    system::write_out(rt, &out, came)
}

fn run(rt: &HostRuntime, count: usize) -> Result<(), Stopped> {
    let mut file = file_room();
    let mut sheet = [0u64; 96];
    let refused = take_all(rt, count, &mut file, &mut sheet)?;
    write_table(rt, &sheet, refused)
}

fn main(rt: HostRuntime) {
    let count = system::argument_count(&rt);
    if !system::has_options(&rt, 2, count) {
        let _ = run(&rt, count);
    }
}
