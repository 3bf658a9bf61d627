// The program behind the script `teyk`: its first argument is a command, the others are files; `--depth` and `--kept` may stand right after
// `list`. It reads, calls the command's function, and writes the bytes that this made; all that talks to the system stands here and in `system`.
#![tactic(auto)]

ghost use Rattle.std.specs.Prelude.{◌≡◌, length};

use commands::Said;
use record::Reading;
use run::Group;
use std::rt::Env;
use system::{Stopped, fault, wrong};

// The commands; `list` with its reading and with what its records hold: of nine numbers it tells depths. So `commands::list` has one
// caller, and its records stand where those of `unpack` do: with two the stack would be too small.
#[derive(Clone, Copy)]
enum Command {
    List(Reading, Group),
    Pack,
    Unpack,
}

impl Command {
    // What it says of the bytes of one file, or a part of it.
    fn say(
        self,
        part: usize,
        headed: bool,
        name: &[u8],
        file: &[u8],
        out: &mut [u8],
        err: &mut [u8],
    ) -> Said {
        match self {
            Command::List(rd, group) => {
                commands::list(part, rd, group, headed, name, file, out, err)
            }
            Command::Pack => files::pack(name, file, out, err),
            Command::Unpack => files::unpack(part, headed, name, file, out, err),
        }
    }

    // The first argument that names a file: the options stand before it.
    fn first_file(self) -> usize {
        match self {
            Command::List(Reading::Old, Group::Five) | Command::Pack | Command::Unpack => 2,
            Command::List(Reading::Kept, Group::Nine) => 4,
            Command::List(_, _) => 3,
        }
    }
}

// No listing has more parts: 32,768 records in parts of 8,192, and a last line.
const MOST_PARTS: usize = 5;

// Room for the longest file of all commands, and one byte more, so that a longer one shows.
fn file_room() -> [u8; 294922]
    ensures { 294922 ≡ length result }
{
    [0; 294922]
}

// Room for a part of a listing, the longest that is said at once.
fn out_room() -> [u8; 524288]
    ensures { 524288 ≡ length result }
{
    [0; 524288]
}

// All that a command says is written.
fn write_said(rt: &HostRuntime, said: Said, out: &[u8], err: &[u8]) -> Result<(), Stopped> {
    system::write_out(rt, out, said.out)?;
    system::write_err(rt, err, said.err)
}

// A command on the bytes of one file, part by part. Not inlined: its rooms are for files that can be read.
#[inline(never)]
fn speak(
    rt: &HostRuntime,
    command: Command,
    headed: bool,
    name: &[u8],
    file: &[u8],
) -> Result<(), Stopped> {
    let mut out = out_room();
    let mut err = [0u8; 8192];
    for part in 0..MOST_PARTS {
        let said = command.say(part, headed, name, file, &mut out, &mut err);
        write_said(rt, said, &out, &err)?;
        if !said.more {
            return Ok(());
        }
    }
    Ok(())
}

// A command on the file that the i-th argument names; after one that cannot be read the next follows.
fn on_named(
    rt: &HostRuntime,
    command: Command,
    headed: bool,
    name: &[u8],
    i: usize,
    file: &mut [u8],
) -> Result<(), Stopped> {
    match system::read_named(rt, i, name, file) {
        Err(why) => {
            fault(rt, name, why);
            Ok(())
        }
        Ok(n) => speak(rt, command, headed, name, &file[..n]),
    }
}

// So is it on the i-th argument.
fn on_argument(
    rt: &HostRuntime,
    command: Command,
    headed: bool,
    i: usize,
    file: &mut [u8],
) -> Result<(), Stopped> {
    let mut name = system::name_room();
    match system::argument(rt, i, &mut name) {
        Err(why) => {
            fault(rt, b"a file's name", why);
            Ok(())
        }
        Ok(n) => on_named(rt, command, headed, &name[..n], i, file),
    }
}

// A command on the files that the arguments from the first on name.
fn on_all(
    rt: &HostRuntime,
    command: Command,
    first: usize,
    count: usize,
    file: &mut [u8],
) -> Result<(), Stopped> {
    let headed = 1 < count.saturating_sub(first);
    for i in first..count {
        on_argument(rt, command, headed, i, file)?;
    }
    Ok(())
}

// An argument that is missing, or longer than any path, is no word.
fn is_argument(rt: &impl Env, i: usize, word: &[u8]) -> bool {
    let mut name = system::name_room();
    let n = system::argument(rt, i, &mut name).unwrap_or(0);
    &name[..n] == word
}

// The command `list` with the options that may stand right after it, each once, in either order.
fn list_command(rt: &impl Env) -> Command {
    if is_argument(rt, 2, b"--depth") {
        if is_argument(rt, 3, b"--kept") {
            return Command::List(Reading::Kept, Group::Nine);
        }
        return Command::List(Reading::Old, Group::Nine);
    }
    if is_argument(rt, 2, b"--kept") {
        if is_argument(rt, 3, b"--depth") {
            return Command::List(Reading::Kept, Group::Nine);
        }
        return Command::List(Reading::Kept, Group::Five);
    }
    Command::List(Reading::Old, Group::Five)
}

fn command_named(rt: &impl Env, name: &[u8]) -> Option<Command> {
    match name {
        b"list" => Some(list_command(rt)),
        b"pack" => Some(Command::Pack),
        b"unpack" => Some(Command::Unpack),
        _ => None,
    }
}

// Without a file it is on standard input. One room is lent for all files: to make one takes longer than to find that there is no such file.
fn run_command(rt: &HostRuntime, command: Command, count: usize) -> Result<(), Stopped> {
    let first = command.first_file();
    if system::has_options(rt, first, count) {
        return Ok(());
    }
    let mut file = file_room();
    if count <= first {
        return on_named(rt, command, false, b"-", first, &mut file);
    }
    on_all(rt, command, first, count, &mut file)
}

fn main(rt: HostRuntime) {
    let count = system::argument_count(&rt);
    let mut name = system::name_room();
    let n = system::argument(&rt, 1, &mut name).unwrap_or(0);
    match command_named(&rt, &name[..n]) {
        None => wrong(&rt, &name[..n], b": unknown command\n"),
        Some(Command::Pack) if 3 < count => wrong(&rt, b"pack", b": takes one file\n"),
        Some(command) => {
            let _ = run_command(&rt, command, count);
        }
    }
}
