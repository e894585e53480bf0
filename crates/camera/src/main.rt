// The camera's program: its status becomes the exit status.
#![tactic(auto)]

use std::process::ExitCode;

fn main(rt: HostRuntime) -> ExitCode {
    let status = camera_program::camera_main(&rt);
    ExitCode::from(status as u8)
}
