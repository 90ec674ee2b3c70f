//! The command `cut`: the file and its shares' files opened, cut, and what is left of them taken away.
ghost use Rattle.std.specs.Prelude.{◌≡◌, [], All, vec_len, IfOk};
ghost use Rattle.clay_aloof.specs.Shape.{all_chunks};

use crate::disk::StdPlaces;
use clay_aloof::AloofGeometry;
use clay_bytes::StdSource;
use file_bytes::StdFile;
use share_run::{
    CodeAsked, Progress, ShareStatus, ToldFile, code_for, ends, ends_short, exit_with, fails,
    list_shares, serve_cut, share_path,
};
use std::alloc::Global;
use std::fs::{self, File};
use std::io::{self, Eprint, ErrorKind};
use std::process::ExitCode;
use std::rt::Files;

// The last part of a path.
fn name_in(path: &str) -> &str {
    match path.rsplit_once('/') {
        Some((_, name)) => name,
        None => path,
    }
}

// A file that is cut into shares in a folder.
#[derive(Drop)]
struct Cut<'a, R: Eprint> {
    rt: &'a R,
    alloc: Global,
    progress: &'a Progress,
    geometry: AloofGeometry,
    path: &'a str,
    folder: &'a str,
}

// The file in which the share of a number is written. Says why, where it can't be made.
fn open_share<'a, R: Files<File = File> + Eprint>(
    cut: &Cut<R>,
    places: &mut StdPlaces<'a, R>,
    number: usize,
) -> Result<StdFile<ToldFile<'a, R>>, ExitCode>
    ensures { IfOk result (λ sink. sink.put ≡ []) }
{
    let Ok(path) = share_path(cut.alloc, cut.folder, name_in(cut.path), number) else {
        return Err(ends_short(cut.rt, cut.folder));
    };
    let file = places.open_beside(cut.alloc, path.as_str(), None)?;
    Ok(StdFile::new(file))
}

// The files in which a file's shares are written. Says why, where one can't be made.
fn open_shares<'a, R: Files<File = File> + Eprint>(
    cut: &Cut<R>,
    places: &mut StdPlaces<'a, R>,
) -> Result<Vec<StdFile<ToldFile<'a, R>>>, ExitCode>
    ensures count { IfOk result (λ sinks. vec_len sinks ≡ all_chunks cut.now.geometry) }
    ensures empty { IfOk result (λ sinks. All (λ sink. sink.put ≡ []) sinks.items) }
{
    let wanted = cut.geometry.n() as usize;
    let Ok(mut sinks) = Vec::with_capacity(cut.alloc, wanted) else {
        return Err(ends_short(cut.rt, cut.folder));
    };
    'sinks: while sinks.len() < wanted {
        let sink = open_share(cut, places, sinks.len())?;
        sinks.push_reserved(sink);
    }
    Ok(sinks)
}

fn make_folder<R: Files>(rt: &R, folder: &str) -> io::Result<()> {
    match fs::create_dir(rt, folder) {
        Err(error) if error.kind() == ErrorKind::AlreadyExists => Ok(()),
        made => made,
    }
}

// Makes a folder, where it isn't there. Says why, where a share stands in it or it can't be made.
fn ready_folder<R: Files<File = File> + AllocGlobal + Clone + Drop + Eprint>(
    rt: &R,
    folder: &str,
) -> Result<(), ExitCode> {
    if let Err(error) = make_folder(rt, folder) {
        return Err(fails(rt, ShareStatus::WriteFault, folder, &error));
    }
    let listed = match list_shares(rt, folder) {
        Ok(listed) => listed,
        Err(error) => return Err(fails(rt, ShareStatus::WriteFault, folder, &error)),
    };
    match listed.first() {
        Some(share) => {
            let why = "a share stands in the folder already";
            Err(ends(rt, ShareStatus::WriteFault, share, why))
        }
        None => Ok(()),
    }
}

// Cuts an open file into shares beside their places, and puts them there.
fn cut_beside<'a, R: Files<File = File> + Eprint>(
    cut: &Cut<R>,
    source: &mut StdSource<ToldFile<R>>,
    places: &mut StdPlaces<'a, R>,
) -> ExitCode {
    let mut sinks = match open_shares(cut, places) {
        Ok(sinks) => sinks,
        Err(exit) => return exit,
    };
    serve_cut(
        cut.rt,
        cut.alloc,
        cut.geometry,
        cut.path,
        source,
        &mut sinks,
        places,
    )
}

// Cuts an open file into shares in a folder in which no share stands.
fn cut_open<R: Files<File = File> + Eprint>(
    cut: &Cut<R>,
    source: &mut StdSource<ToldFile<R>>,
) -> ExitCode {
    let mut places = StdPlaces::new(cut.rt, cut.alloc);
    let exit = cut_beside(cut, source, &mut places);
    places.clear();
    exit
}

// Cuts an open file into shares in a folder, which is made where it isn't there.
fn cut_into<R: Files<File = File> + AllocGlobal + Clone + Drop + Eprint>(
    cut: &Cut<R>,
    source: &mut StdSource<ToldFile<R>>,
) -> ExitCode {
    match ready_folder(cut.rt, cut.folder) {
        Ok(()) => cut_open(cut, source),
        Err(exit) => exit,
    }
}

// Opens the file, and cuts it.
fn open_and_cut<R: Files<File = File> + AllocGlobal + Clone + Drop + Eprint>(
    cut: &Cut<R>,
) -> ExitCode {
    let Ok(name) = String::from_str(cut.alloc, cut.path) else {
        return ends_short(cut.rt, cut.path);
    };
    match fs::open(cut.rt, cut.path) {
        Ok(file) => {
            let told = ToldFile::new(cut.rt, name, file, Some(cut.progress));
            let mut source = StdSource::new(told);
            let exit = cut_into(cut, &mut source);
            drop(source);
            exit
        }
        Err(error) => fails(cut.rt, ShareStatus::ReadFault, cut.path, &error),
    }
}

/// Cuts the file at a path into shares in a folder.
pub(crate) fn run_cut<R: Files<File = File> + AllocGlobal + Clone + Drop + Eprint>(
    rt: &R,
    progress: &Progress,
    code: CodeAsked,
    path: &str,
    folder: &str,
) -> ExitCode {
    let about = match fs::metadata(rt, path) {
        Ok(about) => about,
        Err(error) => return fails(rt, ShareStatus::ReadFault, path, &error),
    };
    if about.is_dir() {
        return ends(rt, ShareStatus::ReadFault, path, "it is a folder");
    }
    // of a pipe the length isn't known
    let size = if about.is_file() {
        progress.begin(about.len());
        about.len()
    } else {
        u64::MAX
    };
    match code_for(code, size) {
        Ok(geometry) => open_and_cut(&Cut {
            rt,
            alloc: rt.alloc(),
            progress,
            geometry,
            path,
            folder,
        }),
        Err(fault) => {
            let _said = eprintln!(rt; "clay_shares: {fault}");
            exit_with(ShareStatus::Usage)
        }
    }
}
