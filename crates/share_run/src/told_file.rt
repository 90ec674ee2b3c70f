//! Open files of std that say why a call of theirs failed, and how far a command has come.

use std::cell::Cell;
use std::fs::File;
use std::io::{self, Eprint, ErrorKind, Read, Write};
use std::os::unix::fs::FileExt;

/// How far a command has come: how many bytes were moved, of how many in all. Of none nothing is told.
#[derive(Drop)]
pub struct Progress {
    is_shown: bool,
    all: Cell<u64>,
    moved: Cell<u64>,
}

// So many of a hundred. A file has at most 2^56 bytes.
fn percent_of(moved: u64, all: u64) -> u64 {
    if all == 0 {
        return 0;
    }
    moved.min(all).saturating_mul(100) / all
}

impl Progress {
    /// Nothing is told before it begins, nor where standard error is no terminal.
    pub fn new(is_shown: bool) -> Self {
        Progress {
            is_shown,
            all: Cell::new(0),
            moved: Cell::new(0),
        }
    }

    /// So many bytes are to be moved from here on.
    pub fn begin(&self, all: u64) {
        if self.is_shown {
            self.all.set(all);
            self.moved.set(0);
        }
    }

    // Tells the percent where it changes, on a line over which the next one is written. The last one is wiped out.
    fn add<R: Eprint>(&self, rt: &R, count: usize) {
        let all = self.all.get();
        let before = percent_of(self.moved.get(), all);
        let moved = self.moved.get().saturating_add(count as u64);
        self.moved.set(moved);
        let percent = percent_of(moved, all);
        if percent != before {
            let _said = if percent < 100 {
                eprint!(rt; "clay_shares: {percent}%\r")
            } else {
                eprint!(rt; "                \r")
            };
        }
    }
}

/// An open file of std. It says why a call failed, the first time, and may count for the progress.
#[derive(Drop)]
pub struct ToldFile<'a, R: Eprint> {
    rt: &'a R,
    path: String,
    file: File,
    is_told: Cell<bool>,
    progress: Option<&'a Progress>,
}

impl<'a, R: Eprint> ToldFile<'a, R> {
    pub fn new(rt: &'a R, path: String, file: File, progress: Option<&'a Progress>) -> Self {
        ToldFile {
            rt,
            path,
            file,
            is_told: Cell::new(false),
            progress,
        }
    }

    fn count(&self, moved: usize) {
        if let Some(progress) = self.progress {
            progress.add(self.rt, moved);
        }
    }

    fn tell(&self, error: &io::Error) {
        if error.kind() == ErrorKind::Interrupted || self.is_told.get() {
            return;
        }
        self.is_told.set(true);
        let path = self.path.as_str();
        let _said = eprintln!(self.rt; "clay_shares: {path}: {error}");
    }
}

impl<'a, R: Eprint> FileExt for ToldFile<'a, R> {
    fn read_at(&self, buf: &mut [u8], offset: u64) -> io::Result<usize> {
        match self.file.read_at(buf, offset) {
            Ok(n) => {
                self.count(n);
                Ok(n)
            }
            Err(error) => {
                self.tell(&error);
                Err(error)
            }
        }
    }

    fn write_at(&self, buf: &[u8], offset: u64) -> io::Result<usize> {
        match self.file.write_at(buf, offset) {
            Ok(n) => {
                self.count(n);
                Ok(n)
            }
            Err(error) => {
                self.tell(&error);
                Err(error)
            }
        }
    }
}

impl<'a, R: Eprint> Read for ToldFile<'a, R> {
    fn read(&mut self, buf: &mut [u8]) -> io::Result<usize> {
        match self.file.read(buf) {
            Ok(n) => {
                self.count(n);
                Ok(n)
            }
            Err(error) => {
                self.tell(&error);
                Err(error)
            }
        }
    }
}

impl<'a, R: Eprint> Write for ToldFile<'a, R> {
    fn write(&mut self, buf: &[u8]) -> io::Result<usize> {
        match self.file.write(buf) {
            Ok(n) => {
                self.count(n);
                Ok(n)
            }
            Err(error) => {
                self.tell(&error);
                Err(error)
            }
        }
    }

    fn flush(&mut self) -> io::Result<()> {
        Ok(())
    }
}
