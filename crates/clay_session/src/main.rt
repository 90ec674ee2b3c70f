//! The program `clay_session`. Its stored run sends a request of each kind, and ends at a length that no frame may have.
#![tactic(auto)]

use std::process::ExitCode;

fn main(rt: HostRuntime) -> ExitCode {
    frame_session::run(&rt)
}
