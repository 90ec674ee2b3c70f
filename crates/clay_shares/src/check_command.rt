//! The command `check`: the shares of a folder opened and judged.
ghost use Rattle.std.specs.Prelude.{◌≡◌, length};
ghost use Rattle.clay_aloof.specs.Shape.{all_chunks};

use crate::folder::{Folder, FolderCommand, chunk_bytes, fit_count, open_folder};
use crate::share_file::ShareFile;
use crate::tell::{tell_missing, tell_share};
use share_files::ShareFault;
use share_format::ShareHeader;
use share_run::{ends_short, serve_check};
use std::alloc::AllocError;
use std::fs::File;
use std::io::Eprint;
use std::process::ExitCode;
use std::rt::Files;

// Says what is wrong with the shares that are there.
fn tell_faults<R: Eprint>(
    rt: &R,
    stem: &str,
    sources: &[ShareFile<R>],
    verdicts: &[Option<ShareFault>],
) {
    for (number, source) in sources.iter().enumerate() {
        if source.is_missing() {
            continue;
        }
        if let Some(Some(fault)) = verdicts.get(number) {
            tell_share(rt, stem, number, *fault);
        }
    }
}

// Says which files have a number that no share has, behind the shares, and whether there are any.
fn tell_strays<R: Eprint>(rt: &R, stem: &str, count: u32, sources: &[ShareFile<R>]) -> bool {
    let mut are_there = false;
    for (number, source) in sources.iter().enumerate() {
        if number >= count as usize && !source.is_missing() {
            tell_share(rt, stem, number, "the code has no share of this number");
            are_there = true;
        }
    }
    are_there
}

// How many bytes the shares have that are there, but for their headers and tables.
fn bytes_of<R: Eprint>(header: &ShareHeader, sources: &[ShareFile<R>]) -> u64 {
    let each = chunk_bytes(header);
    let mut all = 0u64;
    for source in sources {
        if !source.is_missing() {
            all = all.saturating_add(each);
        }
    }
    all
}

// Judges all shares, and says what is wrong with them.
fn judge_shares<R: Eprint>(
    command: &FolderCommand<R>,
    header: &ShareHeader,
    stem: &str,
    strays: bool,
    sources: &mut [ShareFile<R>],
    verdicts: &mut [Option<ShareFault>],
) -> ExitCode
    requires sources { length sources.old ≡ all_chunks header.now.shape }
    requires verdicts { length verdicts.old ≡ all_chunks header.now.shape }
{
    let rt = command.rt;
    let folder = command.folder;
    tell_missing(rt, stem, sources, None);
    let exit = serve_check(
        rt,
        command.alloc,
        command.crc,
        header,
        folder,
        strays,
        sources,
        verdicts,
    );
    tell_faults(rt, stem, sources, verdicts);
    exit
}

// Judges the shares of a folder.
fn check_shares<R: Eprint>(
    command: &FolderCommand<R>,
    shares: &mut Folder<R>,
) -> Result<ExitCode, AllocError> {
    let alloc = command.alloc;
    let header = shares.header;
    let stem = shares.stem.as_str();
    let count = header.geometry().n();
    let strays = tell_strays(command.rt, stem, count, &shares.sources);
    fit_count(alloc, &mut shares.sources, count)?;
    let mut verdicts = vec![in alloc; None::<ShareFault>; count as usize]?;
    command.progress.begin(bytes_of(&header, &shares.sources));
    let sources = &mut shares.sources;
    Ok(judge_shares(command, &header, stem, strays, sources, &mut verdicts))
}

/// Judges the shares of a folder, each to its end.
pub(crate) fn run_check<R: Files<File = File> + AllocGlobal + Clone + Drop + Eprint>(
    command: &FolderCommand<R>,
) -> ExitCode {
    let mut shares = match open_folder(command, Some(command.progress), false) {
        Ok(shares) => shares,
        Err(exit) => return exit,
    };
    match check_shares(command, &mut shares) {
        Ok(exit) => exit,
        Err(AllocError) => ends_short(command.rt, command.folder),
    }
}
