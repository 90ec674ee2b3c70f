//! The file of a share, or none, which reads as an empty one; and what was read of it.
ghost use Rattle.std.specs.Prelude.{◌≤◌, ◌<◌, length, IfOk};

use clay_bytes::Failed;
use file_bytes::{PlaceLog, PositionLog, SourceAt, StdFile};
use share_run::ToldFile;
use std::io::Eprint;

/// How many reads gave bytes of a share, and how many bytes they gave. The counts stop at the ends of their types.
#[derive(Clone, Copy, Default)]
pub(crate) struct Taken {
    pub(crate) reads: u64,
    pub(crate) bytes: u64,
}

impl Taken {
    // After a read that gave so many bytes.
    fn and(self, count: usize) -> Self {
        if count == 0 {
            return self;
        }
        Taken {
            reads: self.reads.saturating_add(1),
            bytes: self.bytes.saturating_add(count as u64),
        }
    }
}

/// The file of a share, if it is there.
#[derive(Drop)]
pub(crate) struct ShareFile<'a, R: Eprint> {
    file: Option<StdFile<ToldFile<'a, R>>>,
    given: PlaceLog,
    ends: PositionLog,
    failed: PositionLog,
    is_told: bool,
    taken: Taken,
}

impl<'a, R: Eprint> ShareFile<'a, R> {
    fn new(file: Option<StdFile<ToldFile<'a, R>>>, is_told: bool) -> Self {
        ShareFile {
            is_told,
            file,
            given: PlaceLog::new(),
            ends: PositionLog::new(),
            failed: PositionLog::new(),
            taken: Taken::default(),
        }
    }

    /// No file. Whether it was said already why there is none.
    pub(crate) fn missing(is_told: bool) -> Self {
        ShareFile::new(None, is_told)
    }

    pub(crate) fn of(file: ToldFile<'a, R>) -> Self {
        ShareFile::new(Some(StdFile::new(file)), false)
    }

    pub(crate) fn is_missing(&self) -> bool {
        self.file.is_none()
    }

    /// Whether it was said already why there is none.
    pub(crate) fn is_told(&self) -> bool {
        self.is_told
    }

    /// Closes the file, where it was said why: it counts as missing.
    pub(crate) fn close(&mut self) {
        self.is_told = true;
        self.file = None;
    }

    /// What was read since it was opened, or since `count_anew`.
    pub(crate) fn taken(&self) -> Taken {
        self.taken
    }

    /// Forgets what was read until now.
    pub(crate) fn count_anew(&mut self) {
        self.taken = Taken::default();
    }
}

// Reads of a file, or of an empty one.
fn read_if<R: Eprint>(
    file: &mut Option<StdFile<ToldFile<R>>>,
    at: u64,
    buf: &mut [u8],
) -> Result<usize, Failed>
    requires { 0 < length buf.old }
    ensures { IfOk result (λ n. n ≤ length buf.new) }
{
    match file {
        Some(file) => file.read_at(at, buf),
        None => Ok(0),
    }
}

impl<'a, R: Eprint> SourceAt for ShareFile<'a, R> {
    ghost given = { λ s. s.given };

    ghost ends = { λ s. s.ends };

    ghost failed = { λ s. s.failed };

    fn read_at(&mut self, at: u64, buf: &mut [u8]) -> Result<usize, Failed> {
        match read_if(&mut self.file, at, buf) {
            Ok(n) => {
                self.given.add(at, buf, n);
                self.ends.add_end(at, n);
                self.taken = self.taken.and(n);
                Ok(n)
            }
            Err(Failed) => {
                self.failed.add(at);
                Err(Failed)
            }
        }
    }
}
