//! The program `clay`. Its stored run plays a script.
#![tactic(auto)]

use std::process::ExitCode;

fn main(rt: HostRuntime) -> ExitCode {
    clay_cli::run(&rt)
}
