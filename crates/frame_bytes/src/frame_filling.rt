//! A buffer filled from a source, however the source cuts its pieces.
ghost use Rattle.std.specs.Prelude.{◌≡◌, ◌≤◌, ◌<◌, true, length, take, IfOk, OnOk, OnErr};
ghost use Rattle.clay_bytes.specs.Stream.{Rises, HandsOut};
ghost use Rattle.frame_bytes.specs.Filling.{Fills, GivesFewer, HandsOutFewer};

use clay_bytes::{Failed, Source};

/// Reads until the buffer is full or the input ends, and says how many bytes stand in it then.
pub(crate) fn fill<S: Source>(source: &mut S, buf: &mut [u8]) -> Result<usize, Failed>
    ensures within { IfOk result (λ n. n ≤ length buf.new) }
    ensures handed_out { IfOk result (λ n. HandsOut (S.given source.old) (S.left source.old) (take n buf.new) (S.given source.new) (S.left source.new)) }
    ensures told { IfOk result (λ n. n < length buf.new → S.ended source.new ≡ true) }
    ensures part { OnErr result (HandsOutFewer (S.given source.old) (S.left source.old) (length buf.new) (S.given source.new) (S.left source.new)) }
    ensures bytes { IfOk result (λ n. Fills (S.left source.old) (length buf.new) (take n buf.new) (S.left source.new)) }
    ensures cut { OnErr result (GivesFewer (S.left source.old) (length buf.new) (S.left source.new)) }
    ensures cause { OnErr result (Rises (S.faults source.old) (S.faults source.new)) }
    ensures steady { OnOk result (S.faults source.new ≡ S.faults source.old) }
    ensures count { S.faults source.old ≤ S.faults source.new }
{
    let mut at = 0;
    'reads: while at < buf.len() {
        let free = &mut buf[at..];
        match source.read(free) {
            Ok(0) => return Ok(at),
            Ok(n) => at += n,
            Err(Failed) => return Err(Failed),
        }
    }
    Ok(at)
}
