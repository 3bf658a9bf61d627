// 01's marked and run-only examples through the forms that it names, then what is unknown (02, E3), what stops a run besides: limits, room, shift, ill-formed text; and single
// calls. The file `stdout` holds what 01 and 02 say of them.
#![tactic(auto)]

mod calls;
mod runs;
mod say;

fn main(rt: HostRuntime) {
    runs::marked(&rt);
    runs::marked_code(&rt);
    runs::run_only(&rt);
    runs::unknown(&rt);
    runs::limits(&rt);
    runs::rooms(&rt);
    runs::shifts(&rt);
    calls::to_the_end(&rt);
    calls::to_an_error(&rt);
    calls::off_the_boundaries(&rt);
}
