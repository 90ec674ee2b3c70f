//! Files of std that are written beside their places. This is the trusted edge: that a file is put where its path says isn't proved.

use crate::folder::stands_no_file;
use clay_bytes::{Failed, StdSink};
use file_bytes::StdFile;
use share_run::{
    FilePlace, FilePlaces, FillLog, Progress, ShareStatus, ToldFile, ends, ends_short, fails,
};
use std::alloc::Global;
use std::fs::{self, File};
use std::io::{self, Eprint, ErrorKind};
use std::process::ExitCode;
use std::rt::Files;

// A file's path, that of the file that is written beside it, and whether that stands there.
#[derive(Drop)]
struct PathPair {
    path: String,
    beside: String,
    is_beside: bool,
}

fn path_pair(alloc: Global, path: &str) -> io::Result<PathPair> {
    Ok(PathPair {
        path: String::from_str(alloc, path)?,
        beside: format!(in alloc; "{path}.part")?,
        is_beside: false,
    })
}

// Refuses a place where something else than a file stands. What it is by itself, as a device, would be gone after the rename.
fn check_place<R: Files + Eprint>(rt: &R, path: &str) -> Result<(), ExitCode> {
    if stands_no_file(rt, path) {
        let why = "it is there, and is no plain file";
        return Err(ends(rt, ShareStatus::WriteFault, path, why));
    }
    Ok(())
}

// Makes a file that isn't there yet.
fn make_file<R: Files<File = File> + Eprint>(rt: &R, path: &str) -> Result<File, ExitCode> {
    match File::create_new(rt, path) {
        Ok(file) => Ok(file),
        Err(error) if error.kind() == ErrorKind::AlreadyExists => {
            let why = "it is there already, of a run that goes on or was ended from outside";
            Err(ends(rt, ShareStatus::WriteFault, path, why))
        }
        Err(error) => Err(fails(rt, ShareStatus::WriteFault, path, &error)),
    }
}

/// The places of some files of std. What is put into one is what was written beside it.
#[derive(Drop)]
pub(crate) struct StdPlaces<'a, R: Files<File = File> + Eprint> {
    rt: &'a R,
    paths: Vec<PathPair>,
    faults: u64,
    log: FillLog,
}

impl<'a, R: Files<File = File> + Eprint> StdPlaces<'a, R> {
    pub(crate) fn new(rt: &'a R, alloc: Global) -> Self {
        StdPlaces {
            rt,
            paths: Vec::new(alloc),
            faults: 0,
            log: FillLog::new(),
        }
    }

    // One more place, and the path beside it.
    fn add(&mut self, alloc: Global, path: &str) -> io::Result<String> {
        let pair = path_pair(alloc, path)?;
        let beside = String::from_str(alloc, pair.beside.as_str())?;
        self.paths.push(pair)?;
        Ok(beside)
    }

    /// Opens a new file beside the next place. Says why, where it can't.
    pub(crate) fn open_beside(
        &mut self,
        alloc: Global,
        path: &str,
        progress: Option<&'a Progress>,
    ) -> Result<ToldFile<'a, R>, ExitCode> {
        check_place(self.rt, path)?;
        let Ok(beside) = self.add(alloc, path) else {
            return Err(ends_short(self.rt, path));
        };
        let file = make_file(self.rt, beside.as_str())?;
        if let Some(pair) = self.paths.last_mut() {
            pair.is_beside = true;
        }
        Ok(ToldFile::new(self.rt, beside, file, progress))
    }

    /// Takes away what stands beside places that weren't filled, and forgets all places.
    pub(crate) fn clear(&mut self) {
        'places: for pair in self.paths.iter() {
            if pair.is_beside {
                let _gone = fs::remove_file(self.rt, pair.beside.as_str());
            }
        }
        self.paths.clear();
    }
}

// Moves the file that stands beside a place there. Says why, where it can't.
fn fill_place<R: Files<File = File> + Eprint>(
    rt: &R,
    paths: &mut [PathPair],
    place: usize,
) -> Result<(), Failed> {
    let Some(pair) = paths.get_mut(place) else {
        return Err(Failed);
    };
    match fs::rename(rt, pair.beside.as_str(), pair.path.as_str()) {
        Ok(()) => {
            pair.is_beside = false;
            Ok(())
        }
        Err(error) => {
            let _exit = fails(rt, ShareStatus::WriteFault, pair.path.as_str(), &error);
            Err(Failed)
        }
    }
}

impl<'a, R: Files<File = File> + Eprint> FilePlaces<StdFile<ToldFile<'a, R>>> for StdPlaces<'a, R> {
    ghost filled_in = { λ s. s.log };

    ghost faults = { λ s. s.faults };

    fn fill(&mut self, place: u32, made: &StdFile<ToldFile<'a, R>>) -> Result<(), Failed> {
        match fill_place(self.rt, &mut self.paths, place as usize) {
            Ok(()) => {
                self.log.add(place, made);
                Ok(())
            }
            Err(Failed) => {
                self.faults = self.faults.saturating_add(1);
                Err(Failed)
            }
        }
    }
}

impl<'a, R: Files<File = File> + Eprint> FilePlace<StdSink<ToldFile<'a, R>>> for StdPlaces<'a, R> {
    ghost filled_in = { λ s. s.log };

    ghost faults = { λ s. s.faults };

    fn fill(&mut self, made: &StdSink<ToldFile<'a, R>>) -> Result<(), Failed> {
        match fill_place(self.rt, &mut self.paths, 0) {
            Ok(()) => {
                self.log.add_row(made);
                Ok(())
            }
            Err(Failed) => {
                self.faults = self.faults.saturating_add(1);
                Err(Failed)
            }
        }
    }
}
