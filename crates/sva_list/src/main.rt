// The listing program: its status becomes the exit status.
//
// Example: of the 60 bytes of `a ##1 b` it prints "ok 1 8 2", "seq 0 = a0 any" and "match = r0 a1 any and", a line each.
#![tactic(auto)]

use std::process::ExitCode;

fn main(rt: HostRuntime) -> ExitCode {
    let status = listing_program::sva_list_main(&rt);
    ExitCode::from(status as u8)
}
