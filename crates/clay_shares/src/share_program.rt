//! The program: the command that its words ask for.
use crate::check_command::run_check;
use crate::cut_command::run_cut;
use crate::folder::FolderCommand;
use crate::join_command::run_join;
use crate::mend_command::run_mend;
use crate::share_words::{Asked, asked_by};
use crc64::Crc64;
use share_run::{Progress, ShareStatus, ends_short, exit_with};
use std::env::{self, Env};
use std::fs::File;
use std::io::{self, Eprint, ErrorKind};
use std::process::ExitCode;
use std::rt::Files;

const USAGE: &str =
    "usage: clay_shares cut K M FILE FOLDER [--helpers D] [--width W] | join FOLDER FILE | mend FOLDER I | check FOLDER";

// The words after the program's name. Where one of them isn't UTF-8 there are none, which are no command's.
fn words_of<R: Env + AllocGlobal>(rt: &R) -> io::Result<Vec<String>> {
    match env::args(rt) {
        Ok(args) => Ok(args.skip(1).collect(rt.alloc())?),
        Err(error) if error.kind() == ErrorKind::InvalidData => Ok(Vec::new(rt.alloc())),
        Err(error) => Err(error),
    }
}

fn run_asked<R: Files<File = File> + AllocGlobal + Clone + Drop + Eprint>(
    rt: &R,
    progress: &Progress,
    asked: Asked,
) -> ExitCode {
    let Ok(crc) = Crc64::new(rt.alloc()) else {
        return ends_short(rt, "checksums");
    };
    match asked {
        Asked::Cut { code, path, folder } => run_cut(rt, progress, code, path, folder),
        Asked::Join { folder, path } => {
            run_join(&FolderCommand::new(rt, progress, &crc, folder), path)
        }
        Asked::Mend { folder, number } => {
            run_mend(&FolderCommand::new(rt, progress, &crc, folder), number)
        }
        Asked::Check { folder } => run_check(&FolderCommand::new(rt, progress, &crc, folder)),
    }
}

/// Runs the command that the process's words ask for, over the files that they name. No clause speaks of the process's own words. How far
/// it has come is told on a terminal.
pub fn run<R: Env + AllocGlobal + Files<File = File> + Clone + Drop + Eprint>(
    rt: &R,
    is_terminal: bool,
) -> ExitCode {
    let Ok(words) = words_of(rt) else {
        return ends_short(rt, "its words");
    };
    match asked_by(&words) {
        Some(asked) => run_asked(rt, &Progress::new(is_terminal), asked),
        None => {
            let _said = eprintln!(rt; "{USAGE}");
            exit_with(ShareStatus::Usage)
        }
    }
}
