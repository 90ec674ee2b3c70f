//! The program `clay_trace`. Its stored run puts an object, writes into it and reads it while a server is away.
#![tactic(auto)]

use std::process::ExitCode;

fn main(rt: HostRuntime) -> ExitCode {
    trace_run::run(&rt)
}
