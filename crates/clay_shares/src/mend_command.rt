//! The command `mend`: the shares of a folder opened, and a lost one made anew from parts of the others, or from whole chunks.
ghost use Rattle.std.specs.Prelude.{◌≡◌, [], length, IfOk};
ghost use Rattle.clay_aloof.specs.Shape.{all_chunks};
ghost use Rattle.share_mends.specs.Asked.{AreHelpers};

use crate::disk::StdPlaces;
use crate::folder::{Folder, FolderCommand, chunk_bytes, fit_count, open_folder};
use crate::share_file::{ShareFile, Taken};
use crate::tell::{tell_lack, tell_missing, tell_share};
use crc64::Crc64;
use file_bytes::StdFile;
use share_format::ShareHeader;
use share_run::{
    MendStop, Progress, ShareStatus, ToldFile, choose_helpers, ends, ends_short, header_of_share,
    serve_mend, serve_rebuild, share_path,
};
use std::alloc::{AllocError, Global};
use std::fs::File;
use std::io::Eprint;
use std::process::ExitCode;
use std::rt::Files;

// Which shares are there.
fn good_marks<R: Eprint>(alloc: Global, sources: &[ShareFile<R>]) -> Result<Vec<bool>, AllocError>
    ensures { IfOk result (λ marks. length marks.items ≡ length sources.now) }
{
    let mut marks = Vec::with_capacity(alloc, sources.len())?;
    for source in sources {
        marks.push(!source.is_missing())?;
    }
    Ok(marks)
}

// Says what was taken of a share.
fn tell_reads<R: Eprint>(rt: &R, stem: &str, number: usize, taken: Taken) {
    let Taken { reads, bytes } = taken;
    tell_share(
        rt,
        stem,
        number,
        format_args!("{bytes} bytes in {reads} reads"),
    );
}

// Says how much was taken in all, beside what a Reed-Solomon code would take.
fn tell_all<R: Eprint>(rt: &R, header: &ShareHeader, all: u64) {
    let k = header.geometry().k();
    let each = chunk_bytes(header);
    let other = each.saturating_mul(u64::from(k));
    let _said = eprintln!(rt;
        "clay_shares: {all} bytes in all; a Reed-Solomon code would take {other}: {each} of each of {k} shares"
    );
}

// Says what was taken of each share and in all.
fn tell_taken<R: Eprint>(rt: &R, stem: &str, header: &ShareHeader, sources: &[ShareFile<R>]) {
    let mut all = 0u64;
    for (number, source) in sources.iter().enumerate() {
        let taken = source.taken();
        if taken.reads > 0 {
            tell_reads(rt, stem, number, taken);
            all = all.saturating_add(taken.bytes);
        }
    }
    tell_all(rt, header, all);
}

// Says why parts don't do.
fn tell_stop<R: Eprint>(rt: &R, stem: &str, stop: MendStop) {
    match stop {
        MendStop::RottenHelper(part) => {
            tell_lack(rt, stem, part.share as usize, "part", part.stripe);
        }
        MendStop::UnreadHelper => {
            let why = "a read of a share failed";
            let _said = ends(rt, ShareStatus::ReadFault, stem, why);
        }
    }
}

// What a mend works with: the names of the shares, and the path of the one that is made.
#[derive(Drop)]
struct Mend<'a, R: Eprint> {
    rt: &'a R,
    alloc: Global,
    progress: &'a Progress,
    crc: &'a Crc64,
    stem: &'a str,
    path: &'a str,
}

// Opens the file beside the share's place, and begins to count its bytes.
fn open_sink<'a, R: Files<File = File> + Eprint>(
    mend: &Mend<'a, R>,
    header: &ShareHeader,
    places: &mut StdPlaces<'a, R>,
) -> Result<StdFile<ToldFile<'a, R>>, ExitCode>
    ensures { IfOk result (λ sink. sink.put ≡ []) }
{
    let file = places.open_beside(mend.alloc, mend.path, Some(mend.progress))?;
    mend.progress.begin(chunk_bytes(header));
    Ok(StdFile::new(file))
}

// Mends a share from the marked helpers' parts into an open file. None where one of them stops it.
fn parts_into<'a, R: Files<File = File> + Eprint>(
    mend: &Mend<'a, R>,
    header: &ShareHeader,
    sources: &mut [ShareFile<R>],
    helpers: &[bool],
    sink: &mut StdFile<ToldFile<'a, R>>,
    places: &mut StdPlaces<'a, R>,
) -> Option<ExitCode>
    requires sources { length sources.old ≡ all_chunks header.now.shape }
    requires helpers { AreHelpers header.now.shape header.now.share helpers.now }
    requires empty { sink.old.put ≡ [] }
{
    match serve_mend(
        mend.rt, mend.alloc, mend.crc, header, mend.path, sources, helpers, sink, places,
    ) {
        Ok(exit) => {
            tell_taken(mend.rt, mend.stem, header, sources);
            Some(exit)
        }
        Err(stop) => {
            tell_stop(mend.rt, mend.stem, stop);
            places.clear();
            None
        }
    }
}

// Mends a share from the marked helpers' parts. None where one of them stops it.
fn by_parts<'a, R: Files<File = File> + Eprint>(
    mend: &Mend<'a, R>,
    header: &ShareHeader,
    sources: &mut [ShareFile<R>],
    helpers: &[bool],
    places: &mut StdPlaces<'a, R>,
) -> Option<ExitCode>
    requires sources { length sources.old ≡ all_chunks header.now.shape }
    requires helpers { AreHelpers header.now.shape header.now.share helpers.now }
{
    match open_sink(mend, header, places) {
        Ok(mut sink) => {
            let mended = parts_into(mend, header, sources, helpers, &mut sink, places);
            drop(sink);
            mended
        }
        Err(exit) => Some(exit),
    }
}

// Mends a share from whole blocks of any `K` of those that are there into an open file.
fn blocks_into<'a, R: Files<File = File> + Eprint>(
    mend: &Mend<'a, R>,
    header: &ShareHeader,
    sources: &mut [ShareFile<R>],
    sink: &mut StdFile<ToldFile<'a, R>>,
    places: &mut StdPlaces<'a, R>,
) -> ExitCode
    requires sources { length sources.old ≡ all_chunks header.now.shape }
    requires empty { sink.old.put ≡ [] }
{
    let lost = header.share() as usize;
    tell_missing(mend.rt, mend.stem, sources, Some(lost));
    let exit = serve_rebuild(
        mend.rt, mend.alloc, mend.crc, header, mend.path, sources, sink, places,
    );
    tell_taken(mend.rt, mend.stem, header, sources);
    exit
}

// Mends a share from whole blocks of any `K` of those that are there.
fn by_blocks<'a, R: Files<File = File> + Eprint>(
    mend: &Mend<'a, R>,
    header: &ShareHeader,
    sources: &mut [ShareFile<R>],
    places: &mut StdPlaces<'a, R>,
) -> ExitCode
    requires sources { length sources.old ≡ all_chunks header.now.shape }
{
    match open_sink(mend, header, places) {
        Ok(mut sink) => {
            let exit = blocks_into(mend, header, sources, &mut sink, places);
            drop(sink);
            exit
        }
        Err(exit) => exit,
    }
}

// Mends a share by parts of helpers among the good ones, where there are some that do, and else by whole blocks.
fn mend_marked<'a, R: Files<File = File> + Eprint>(
    mend: &Mend<'a, R>,
    header: &ShareHeader,
    sources: &mut [ShareFile<R>],
    good: &[bool],
    places: &mut StdPlaces<'a, R>,
) -> Result<ExitCode, AllocError>
    requires sources { length sources.old ≡ all_chunks header.now.shape }
    requires good { length good.now ≡ all_chunks header.now.shape }
{
    // a header's limits are known once its stripes are counted
    let _stripes = header.stripe_count();
    let geometry = header.geometry();
    if let Some(helpers) = choose_helpers(mend.alloc, geometry, header.share(), good)? {
        if let Some(exit) = by_parts(mend, header, sources, &helpers, places) {
            return Ok(exit);
        }
    }
    Ok(by_blocks(mend, header, sources, places))
}

// Mends a share of those of a folder, beside its place.
fn mend_beside<'a, R: Files<File = File> + Eprint>(
    mend: &Mend<'a, R>,
    header: &ShareHeader,
    sources: &mut Vec<ShareFile<R>>,
) -> Result<ExitCode, AllocError> {
    fit_count(mend.alloc, sources, header.geometry().n())?;
    let good = good_marks(mend.alloc, sources)?;
    let mut places = StdPlaces::new(mend.rt, mend.alloc);
    let exit = mend_marked(mend, header, sources, &good, &mut places);
    places.clear();
    exit
}

// Mends the share of a number of those in a folder.
fn mend_numbered<R: Files<File = File> + Eprint>(
    command: &FolderCommand<R>,
    shares: &mut Folder<R>,
    number: u32,
) -> Result<ExitCode, AllocError> {
    let told = shares.header;
    if number >= told.geometry().n() {
        let why = "the code has no share of this number";
        return Ok(ends(command.rt, ShareStatus::Usage, command.folder, why));
    }
    let stem = shares.stem.as_str();
    let path = share_path(command.alloc, command.folder, stem, number as usize)?;
    let mend = Mend {
        rt: command.rt,
        alloc: command.alloc,
        progress: command.progress,
        crc: command.crc,
        stem,
        path: path.as_str(),
    };
    mend_beside(&mend, &header_of_share(&told, number), &mut shares.sources)
}

/// Makes the share of a number in a folder anew.
pub(crate) fn run_mend<R: Files<File = File> + AllocGlobal + Clone + Drop + Eprint>(
    command: &FolderCommand<R>,
    number: u32,
) -> ExitCode {
    let mut shares = match open_folder(command, None, true) {
        Ok(shares) => shares,
        Err(exit) => return exit,
    };
    match mend_numbered(command, &mut shares, number) {
        Ok(exit) => exit,
        Err(AllocError) => ends_short(command.rt, command.folder),
    }
}
