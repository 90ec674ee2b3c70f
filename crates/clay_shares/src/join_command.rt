//! The command `join`: the shares of a folder opened and joined, and what is left of the file taken away.
ghost use Rattle.std.specs.Prelude.{◌≡◌, [], length};
ghost use Rattle.clay_bytes.specs.Standard.{write_log};
ghost use Rattle.clay_aloof.specs.Shape.{all_chunks};

use crate::disk::StdPlaces;
use crate::folder::{Folder, FolderCommand, fit_count, open_folder};
use crate::share_file::ShareFile;
use crate::tell::{tell_lack, tell_missing};
use clay_bytes::StdSink;
use share_format::ShareHeader;
use share_run::{ToldFile, ends_short, serve_join};
use std::alloc::AllocError;
use std::fs::File;
use std::io::Eprint;
use std::process::ExitCode;
use std::rt::Files;

// Says which shares lacked blocks.
fn tell_missed<R: Eprint>(rt: &R, stem: &str, sources: &[ShareFile<R>], missed: &[Option<u64>]) {
    for (number, source) in sources.iter().enumerate() {
        if source.is_missing() {
            continue;
        }
        if let Some(Some(stripe)) = missed.get(number) {
            tell_lack(rt, stem, number, "block", *stripe);
        }
    }
}

// Joins all shares to an open file beside its place, and says which of them lacked blocks.
fn join_shares<'a, R: Files<File = File> + Eprint>(
    command: &FolderCommand<R>,
    header: &ShareHeader,
    path: &str,
    stem: &str,
    sources: &mut [ShareFile<R>],
    sink: &mut StdSink<ToldFile<'a, R>>,
    places: &mut StdPlaces<'a, R>,
    missed: &mut [Option<u64>],
) -> ExitCode
    requires sources { length sources.old ≡ all_chunks header.now.shape }
    requires missed { length missed.old ≡ all_chunks header.now.shape }
    requires empty { write_log sink.old ≡ [] }
{
    let rt = command.rt;
    tell_missing(rt, stem, sources, None);
    let exit = serve_join(
        rt,
        command.alloc,
        command.crc,
        header,
        path,
        sources,
        sink,
        places,
        missed,
    );
    tell_missed(rt, stem, sources, missed);
    exit
}

// Joins the shares of a folder to an open file beside its place.
fn join_open<'a, R: Files<File = File> + Eprint>(
    command: &FolderCommand<R>,
    shares: &mut Folder<R>,
    path: &str,
    sink: &mut StdSink<ToldFile<'a, R>>,
    places: &mut StdPlaces<'a, R>,
) -> Result<ExitCode, AllocError>
    requires { write_log sink.old ≡ [] }
{
    let alloc = command.alloc;
    let header = shares.header;
    let stem = shares.stem.as_str();
    let count = header.geometry().n();
    fit_count(alloc, &mut shares.sources, count)?;
    let mut missed = vec![in alloc; None::<u64>; count as usize]?;
    let sources = &mut shares.sources;
    Ok(join_shares(
        command,
        &header,
        path,
        stem,
        sources,
        sink,
        places,
        &mut missed,
    ))
}

// Joins the shares of a folder to a file beside its place.
fn join_beside<'a, R: Files<File = File> + Eprint>(
    command: &FolderCommand<'a, R>,
    shares: &mut Folder<R>,
    path: &str,
    places: &mut StdPlaces<'a, R>,
) -> ExitCode {
    let mut sink = match places.open_beside(command.alloc, path, Some(command.progress)) {
        Ok(file) => StdSink::new(file),
        Err(exit) => return exit,
    };
    let joined = join_open(command, shares, path, &mut sink, places);
    drop(sink);
    match joined {
        Ok(exit) => exit,
        Err(AllocError) => ends_short(command.rt, path),
    }
}

/// Joins the shares of a folder to a file at a path.
pub(crate) fn run_join<R: Files<File = File> + AllocGlobal + Clone + Drop + Eprint>(
    command: &FolderCommand<R>,
    path: &str,
) -> ExitCode {
    let mut shares = match open_folder(command, None, true) {
        Ok(shares) => shares,
        Err(exit) => return exit,
    };
    command.progress.begin(shares.header.size());
    let mut places = StdPlaces::new(command.rt, command.alloc);
    let exit = join_beside(command, &mut shares, path, &mut places);
    places.clear();
    exit
}
