// What each of seventeen texts adds to a sheet, and what they come to; and numbers that are no sheet. The file `stdout` holds what 02, E2 and E4 say of them.
#![tactic(auto)]

mod refusals;
mod small;

use sheet::Taken;
use system::say;

// What became of a text, with the refusal's line.
fn taken(rt: &impl Print, t: Taken) {
    let (words, refused) = shown::page::taken(t);
    say(rt, words);
    if let Some(r) = refused {
        say(rt, shown::refusal(r).bytes());
    }
}

fn main(rt: HostRuntime) {
    small::seventeen(&rt);
    refusals::refusals(&rt);
}
