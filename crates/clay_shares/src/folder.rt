//! The shares in a folder: which of them are there, and what their headers tell.
ghost use Rattle.std.specs.Prelude.{◌≡◌, vec_len, OnOk};

use crate::share_file::ShareFile;
use crate::tell::tell_share;
use crc64::Crc64;
use share_files::ShareFault;
use share_format::ShareHeader;
use share_run::{
    Head, Progress, ShareNames, ShareStatus, ToldFile, ends, ends_short, fails, is_of_cut,
    list_shares, read_heads, told_header,
};
use std::alloc::{AllocError, Global};
use std::fs::{self, File};
use std::io::Eprint;
use std::process::ExitCode;
use std::rt::Files;

/// What a command over the shares in a folder works with.
#[derive(Drop)]
pub(crate) struct FolderCommand<'a, R: Eprint> {
    pub(crate) rt: &'a R,
    pub(crate) alloc: Global,
    pub(crate) progress: &'a Progress,
    pub(crate) crc: &'a Crc64,
    pub(crate) folder: &'a str,
}

impl<'a, R: AllocGlobal + Eprint> FolderCommand<'a, R> {
    pub(crate) fn new(rt: &'a R, progress: &'a Progress, crc: &'a Crc64, folder: &'a str) -> Self {
        FolderCommand {
            rt,
            alloc: rt.alloc(),
            progress,
            crc,
            folder,
        }
    }
}

/// The shares of a folder: what stands before the numbers in their names, a header of the cut that most of them are of, and for each number its file.
#[derive(Drop)]
pub(crate) struct Folder<'a, R: Eprint> {
    pub(crate) stem: String,
    pub(crate) header: ShareHeader,
    pub(crate) sources: Vec<ShareFile<'a, R>>,
}

/// Leaves the first so many of some shares, and puts missing ones behind them where there are fewer.
pub(crate) fn fit_count<R: Eprint>(
    alloc: Global,
    sources: &mut Vec<ShareFile<R>>,
    count: u32,
) -> Result<(), AllocError>
    ensures { OnOk result (vec_len sources.new ≡ count) }
{
    let wanted = count as usize;
    sources.truncate(wanted);
    'shares: while sources.len() < wanted {
        sources.push(ShareFile::missing(false))?;
    }
    Ok(())
}

/// Whether something stands at a path that is no plain file. A pipe isn't opened: it would be waited for.
pub(crate) fn stands_no_file<R: Files>(rt: &R, path: &str) -> bool {
    match fs::metadata(rt, path) {
        Ok(about) => !about.is_file(),
        Err(_) => false,
    }
}

// Opens the file of a share. Says why, where it can't.
fn open_file<R: Files<File = File> + Eprint>(rt: &R, path: &str, name: &str) -> Option<File> {
    if stands_no_file(rt, path) {
        let _said = ends(rt, ShareStatus::ReadFault, name, "it is no plain file");
        return None;
    }
    match fs::open(rt, path) {
        Ok(file) => Some(file),
        Err(error) => {
            let _said = fails(rt, ShareStatus::ReadFault, name, &error);
            None
        }
    }
}

fn open_in<R: Files<File = File> + Eprint>(
    command: &FolderCommand<R>,
    name: &str,
) -> Result<Option<File>, AllocError> {
    let folder = command.folder;
    let path = format!(in command.alloc; "{folder}/{name}")?;
    Ok(open_file(command.rt, path.as_str(), name))
}

// The file of a share. Where it can't be opened it counts as missing.
fn open_share<'a, R: Files<File = File> + Eprint>(
    command: &FolderCommand<'a, R>,
    progress: Option<&'a Progress>,
    name: &str,
) -> Result<ShareFile<'a, R>, AllocError> {
    let told = String::from_str(command.alloc, name)?;
    match open_in(command, name)? {
        Some(file) => Ok(ShareFile::of(ToldFile::new(command.rt, told, file, progress))),
        None => Ok(ShareFile::missing(true)),
    }
}

// The file of a share, or none where there is no name.
fn open_held<'a, R: Files<File = File> + Eprint>(
    command: &FolderCommand<'a, R>,
    progress: Option<&'a Progress>,
    held: &Option<String>,
) -> Result<ShareFile<'a, R>, AllocError> {
    match held {
        Some(name) => open_share(command, progress, name.as_str()),
        None => Ok(ShareFile::missing(false)),
    }
}

// The files of all shares, or none for each that is missing.
fn open_all<'a, R: Files<File = File> + Eprint>(
    command: &FolderCommand<'a, R>,
    progress: Option<&'a Progress>,
    names: &[Option<String>],
) -> Result<Vec<ShareFile<'a, R>>, AllocError> {
    let mut sources = Vec::new(command.alloc);
    for held in names {
        let source = open_held(command, progress, held)?;
        sources.push(source)?;
    }
    Ok(sources)
}

/// The bytes of a share's chunks.
pub(crate) fn chunk_bytes(header: &ShareHeader) -> u64 {
    let chunk = u64::from(header.geometry().chunk_len());
    header.stripe_count().saturating_mul(chunk)
}

// Says why a share counts as missing, and closes it, if it is there.
fn close_share<R: Eprint>(
    rt: &R,
    stem: &str,
    number: usize,
    head: &Head,
    source: &mut ShareFile<R>,
) {
    if source.is_missing() {
        return;
    }
    match head {
        Err(refusal) => tell_share(rt, stem, number, *refusal),
        Ok(_) => tell_share(rt, stem, number, ShareFault::Foreign),
    }
    source.close();
}

// Whether a share has the header of its number of the cut, where there is one.
fn fits(cut: &Option<ShareHeader>, number: usize, head: &Head) -> bool {
    match cut {
        Some(cut) => is_of_cut(cut, number, head),
        None => false,
    }
}

// Closes the shares that haven't the header of their number of the cut, and says why: they count as missing.
fn close_unfit<R: Eprint>(
    rt: &R,
    stem: &str,
    cut: &Option<ShareHeader>,
    heads: &[Head],
    sources: &mut [ShareFile<R>],
) {
    for (number, source) in sources.iter_mut().enumerate() {
        source.count_anew();
        if let Some(head) = heads.get(number) {
            if !fits(cut, number, head) {
                close_share(rt, stem, number, head, source);
            }
        }
    }
}

// The header of the cut that most shares are of, by their headers. Unfit ones are closed where that is asked for, and where there is none.
fn read_cut<R: Eprint>(
    command: &FolderCommand<R>,
    stem: &str,
    closes: bool,
    sources: &mut [ShareFile<R>],
) -> Result<ShareHeader, ExitCode> {
    let Ok(heads) = read_heads(command.alloc, command.crc, sources) else {
        return Err(ends_short(command.rt, command.folder));
    };
    let told = told_header(&heads);
    if closes || told.is_none() {
        close_unfit(command.rt, stem, &told, &heads, sources);
    }
    match told {
        Some(header) => Ok(header),
        None => {
            let why = "there is no share whose header is good";
            Err(ends(command.rt, ShareStatus::TooFew, command.folder, why))
        }
    }
}

// Opens the shares of these names, if all are of one file.
fn open_names<'a, R: Files<File = File> + Eprint>(
    command: &FolderCommand<'a, R>,
    progress: Option<&'a Progress>,
    listed: &ShareNames,
) -> Result<Vec<ShareFile<'a, R>>, ExitCode> {
    if let Some(name) = &listed.other {
        let why = "it is a share of another file than the others in the folder";
        return Err(ends(command.rt, ShareStatus::BadShare, name.as_str(), why));
    }
    match open_all(command, progress, &listed.names) {
        Ok(sources) => Ok(sources),
        Err(AllocError) => Err(ends_short(command.rt, command.folder)),
    }
}

// Opens the shares of these names, and reads their headers.
fn open_listed<'a, R: Files<File = File> + Eprint>(
    command: &FolderCommand<'a, R>,
    progress: Option<&'a Progress>,
    closes: bool,
    listed: &ShareNames,
) -> Result<Folder<'a, R>, ExitCode> {
    let mut sources = open_names(command, progress, listed)?;
    let header = read_cut(command, listed.cut_name(), closes, &mut sources)?;
    match String::from_str(command.alloc, listed.cut_name()) {
        Ok(stem) => Ok(Folder {
            stem,
            header,
            sources,
        }),
        Err(AllocError) => Err(ends_short(command.rt, command.folder)),
    }
}

/// Opens the shares of a folder. What is read of them may count for the progress. Those that haven't the header of their number of its cut may
/// be closed: they count as missing then, and it is said why.
pub(crate) fn open_folder<'a, R: Files<File = File> + AllocGlobal + Clone + Drop + Eprint>(
    command: &FolderCommand<'a, R>,
    progress: Option<&'a Progress>,
    closes: bool,
) -> Result<Folder<'a, R>, ExitCode> {
    match list_shares(command.rt, command.folder) {
        Ok(listed) => open_listed(command, progress, closes, &listed),
        Err(error) => Err(fails(command.rt, ShareStatus::ReadFault, command.folder, &error)),
    }
}
