//! What sources and sinks at positions are, and the two loops over them.
ghost use Rattle.std.specs.Prelude.{◌≡◌, ◌≤◌, ◌<◌, ◌+◌, ◌^◌, ◌++◌, ◌∷◌, [], List, ℕ, length, take, slice_range, IfOk, IsErrOf, OnOk, OnErr};
ghost use Rattle.clay_bytes.specs.Stream.{Rises};
ghost use Rattle.file_bytes.specs.Places.{Placed, placed_from, ends_after, Shows, FailsBefore, EndsBefore};
ghost use Rattle.file_bytes.specs.Laid.{laid, laid_at, PutsFewer};

use clay_bytes::{Failed, WriteFault};
use thiserror::Error;

/// Why bytes at a position can't be had.
#[derive(Clone, Copy, Debug, PartialEq, Eq, Error)]
pub enum ReadFault {
    #[error("a read failed")]
    Failed,
    #[error("the file ends too early")]
    Ended,
}

/// A file that is read at positions.
pub trait SourceAt {
    /// The bytes that its reads have handed out. Each answer is known to its caller, whatever stands beneath.
    ghost given: { Self → List Placed };

    /// The positions at which a read found no byte.
    ghost ends: { Self → List ℕ };

    /// The positions at which a read failed.
    ghost failed: { Self → List ℕ };

    /// Takes bytes from a position on into the front of the buffer, and answers how many. `Ok(0)` is the end of the file.
    fn read_at(&mut self, at: u64, buf: &mut [u8]) -> Result<usize, Failed>
        requires { 0 < length buf.old }
        ensures bound { IfOk result (λ n. n ≤ length buf.new) }
        ensures hands_out { IfOk result (λ n. given self.new ≡ given self.old ++ placed_from at (take n buf.new)) }
        ensures tells_end { IfOk result (λ n. ends self.new ≡ ends_after (ends self.old) at n) }
        ensures unheard { OnErr result ((given self.new ≡ given self.old) × (ends self.new ≡ ends self.old)) }
        ensures fails { OnErr result (failed self.new ≡ failed self.old ++ (at ∷ [])) }
        ensures steady { OnOk result (failed self.new ≡ failed self.old) };
}

/// A file that is written at positions.
pub trait SinkAt {
    /// The bytes that its writes have taken. Each answer is known to its caller, whatever stands beneath.
    ghost put: { Self → List Placed };

    /// How many writes have failed, as a number that stops at the end of its type.
    ghost faults: { Self → ℕ };

    /// Puts bytes of the front of a piece, at least one, at a position, and answers how many.
    fn write_at(&mut self, at: u64, piece: &[u8]) -> Result<usize, Failed>
        requires { 0 < length piece.now }
        ensures bound { IfOk result (λ n. n ≤ length piece.now) }
        ensures some { IfOk result (λ n. 0 < n) }
        ensures takes { IfOk result (λ n. put self.new ≡ put self.old ++ placed_from at (take n piece.now)) }
        ensures unheard { OnErr result (put self.new ≡ put self.old) }
        ensures cause { OnErr result (Rises (faults self.old) (faults self.new)) }
        ensures steady { OnOk result (faults self.new ≡ faults self.old) }
        ensures count { faults self.old ≤ faults self.new };
}

/// Fills the buffer from a position on.
pub fn read_exact_at<S: SourceAt>(source: &mut S, at: u64, buf: &mut [u8]) -> Result<(), ReadFault>
    requires { at + length buf.old < 2 ^ 64 }
    ensures given { OnOk result (S.given source.new ≡ S.given source.old ++ placed_from at buf.new) }
    ensures failed { IsErrOf result ReadFault.Failed → FailsBefore (S.given source.old) (S.failed source.old) at (length buf.new) (S.given source.new) (S.failed source.new) }
    ensures ended { IsErrOf result ReadFault.Ended → EndsBefore (S.given source.old) (S.ends source.old) at (length buf.new) (S.given source.new) (S.ends source.new) }
    ensures on { (IsErrOf result ReadFault.Ended → ⊥) → S.ends source.new ≡ S.ends source.old }

    // Whatever file has all that the source handed out and told, the bytes are that file's, and it is too short only where it ends.
    ensures shown { (file : List ℕ) → Shows file (S.given source.new) (S.ends source.new) → OnOk result (buf.new ≡ slice_range file at (at + length buf.new)) }
    ensures short { (file : List ℕ) → Shows file (S.given source.new) (S.ends source.new) → IsErrOf result ReadFault.Ended → length file < at + length buf.new }

    ensures steady { (IsErrOf result ReadFault.Failed → ⊥) → S.failed source.new ≡ S.failed source.old }
{
    let mut done = 0;
    'reads: while done < buf.len() {
        let rest = &mut buf[done..];
        match source.read_at(at + done as u64, rest) {
            Ok(0) => return Err(ReadFault::Ended),
            Ok(n) => done += n,
            Err(Failed) => return Err(ReadFault::Failed),
        }
    }
    Ok(())
}

/// Puts all the bytes from a position on. After a fault fewer of them, from their front, are put.
pub fn write_all_at<K: SinkAt>(sink: &mut K, at: u64, bytes: &[u8]) -> Result<(), WriteFault>
    requires { at + length bytes.now < 2 ^ 64 }
    ensures put { OnOk result (K.put sink.new ≡ K.put sink.old ++ placed_from at bytes.now) }
    ensures part { OnErr result (PutsFewer (K.put sink.old) at bytes.now (K.put sink.new)) }
    // The file that the writes make has the bytes from the position on.
    ensures laid { OnOk result (0 < length bytes.now → laid (K.put sink.new) ≡ laid_at at bytes.now (laid (K.put sink.old))) }
    ensures cause { OnErr result (Rises (K.faults sink.old) (K.faults sink.new)) }
    ensures steady { OnOk result (K.faults sink.new ≡ K.faults sink.old) }
    ensures count { K.faults sink.old ≤ K.faults sink.new }
{
    let mut done = 0;
    'pieces: while done < bytes.len() {
        match sink.write_at(at + done as u64, &bytes[done..]) {
            Ok(n) => done += n,
            Err(Failed) => return Err(WriteFault),
        }
    }
    Ok(())
}
