//! Open files of std at positions. This is the trusted edge: what the system gives and takes is known only as far as they say.
ghost use Rattle.std.specs.Prelude.{◌≡◌, ◌≤◌, ◌<◌, [], length, IfOk};

use crate::position_logs::{PlaceLog, PositionLog};
use crate::{SinkAt, SourceAt};
use clay_bytes::Failed;
use std::io::ErrorKind;
use std::os::unix::fs::FileExt;

/// An open file of std. A call that was interrupted is made again and doesn't count.
#[derive(Drop)]
pub struct StdFile<F: FileExt> {
    file: F,
    faults: u64,
    given: PlaceLog,
    ends: PositionLog,
    failed: PositionLog,
    put: PlaceLog,
}

impl<F: FileExt> StdFile<F> {
    pub fn new(file: F) -> Self
        ensures file { result.file ≡ file }
        ensures faults { result.faults ≡ 0 }
        ensures given { result.given ≡ [] }
        ensures ends { result.ends ≡ [] }
        ensures failed { result.failed ≡ [] }
        ensures put { result.put ≡ [] }
    {
        StdFile {
            file,
            faults: 0,
            given: PlaceLog::new(),
            ends: PositionLog::new(),
            failed: PositionLog::new(),
            put: PlaceLog::new(),
        }
    }

    /// The file beneath.
    pub fn file(&self) -> &F
        ensures { result.now ≡ self.now.file }
    {
        &self.file
    }
}

impl<F: FileExt> SourceAt for StdFile<F> {
    ghost given = { λ s. s.given };

    ghost ends = { λ s. s.ends };

    ghost failed = { λ s. s.failed };

    fn read_at(&mut self, at: u64, buf: &mut [u8]) -> Result<usize, Failed> {
        match read_again(&self.file, at, buf) {
            Ok(n) => {
                self.given.add(at, buf, n);
                self.ends.add_end(at, n);
                Ok(n)
            }
            Err(Failed) => {
                self.failed.add(at);
                Err(Failed)
            }
        }
    }
}

impl<F: FileExt> SinkAt for StdFile<F> {
    ghost put = { λ s. s.put };

    ghost faults = { λ s. s.faults };

    fn write_at(&mut self, at: u64, piece: &[u8]) -> Result<usize, Failed> {
        match write_again(&self.file, at, piece) {
            Ok(n) => {
                self.put.add(at, piece, n);
                Ok(n)
            }
            Err(Failed) => {
                self.faults = self.faults.saturating_add(1);
                Err(Failed)
            }
        }
    }
}

// A read that is made again while it is interrupted.
fn read_again<F: FileExt>(file: &F, at: u64, buf: &mut [u8]) -> Result<usize, Failed>
    ensures { IfOk result (λ n. n ≤ length buf.new) }
{
    'tries: for _ in 0..u64::MAX {
        match file.read_at(buf, at) {
            Ok(n) => return Ok(n),
            Err(e) if e.kind() == ErrorKind::Interrupted => {}
            Err(_) => return Err(Failed),
        }
    }
    Err(Failed)
}

// A write that is made again while it is interrupted. One that takes nothing where there is something fails.
fn write_again<F: FileExt>(file: &F, at: u64, piece: &[u8]) -> Result<usize, Failed>
    ensures bound { IfOk result (λ n. n ≤ length piece.now) }
    ensures some { IfOk result (λ n. 0 < n) }
{
    'tries: for _ in 0..u64::MAX {
        match file.write_at(piece, at) {
            Ok(0) => return Err(Failed),
            Ok(n) => return Ok(n),
            Err(e) if e.kind() == ErrorKind::Interrupted => {}
            Err(_) => return Err(Failed),
        }
    }
    Err(Failed)
}
