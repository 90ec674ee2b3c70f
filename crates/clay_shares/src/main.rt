//! The program `clay_shares`: files cut into shares, joined from them and mended. It opens the files that its words name, and says what was
//! wrong with them; `share_run` does the rest. Its stored run joins two shares of four.
#![tactic(auto)]

mod check_command;
mod cut_command;
mod disk;
mod folder;
mod join_command;
mod mend_command;
mod share_file;
mod share_program;
mod share_words;
mod tell;

use std::io::IsTerminal;
use std::process::ExitCode;

fn main(rt: HostRuntime) -> ExitCode {
    share_program::run(&rt, rt.stderr().is_terminal())
}
