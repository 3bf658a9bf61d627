// What the public forms besides the reading answer: string expansion, payloads, LTK files; and every kind's and every refusal's name. The file
// `stdout` holds what 01 says of them.
#![tactic(auto)]

mod expansions;
mod files;
mod names;
mod payloads;
mod say;

fn main(rt: HostRuntime) {
    expansions::escaped(&rt);
    expansions::rooms(&rt);
    expansions::parts(&rt);
    payloads::all(&rt);
    files::written(&rt);
    files::checked(&rt);
    names::all(&rt);
}
