//! A stripe of a file read from a source.
ghost use Rattle.std.specs.Prelude.{◌≡◌, ◌≤◌, ◌<◌, true, length, take, IfOk, OnOk, OnErr};
ghost use Rattle.clay_bytes.specs.Stream.{Rises, HandsOut, IsSpent};
ghost use Rattle.clay_model.specs.Code.{padded};

use clay_bytes::{Failed, Source};

// Reads until the buffer is full or the input ends, and says how many bytes stand in it then.
fn fill<S: Source>(source: &mut S, buf: &mut [u8]) -> Result<usize, Failed>
    ensures within { IfOk result (λ n. n ≤ length buf.new) }
    ensures handed_out { IfOk result (λ n. HandsOut (S.given source.old) (S.left source.old) (take n buf.new) (S.given source.new) (S.left source.new)) }
    ensures told { IfOk result (λ n. n < length buf.new → S.ended source.new ≡ true) }
    ensures spent { IfOk result (λ n. n < length buf.new → IsSpent (S.left source.new)) }
    ensures cause { OnErr result (Rises (S.faults source.old) (S.faults source.new)) }
    ensures steady { OnOk result (S.faults source.new ≡ S.faults source.old) }
    ensures count { S.faults source.old ≤ S.faults source.new }
{
    let mut at = 0;
    'reads: while at < buf.len() {
        let free = &mut buf[at..];
        match source.read(free) {
            Ok(0) => return Ok(at),
            Ok(n) => at += n,
            Err(Failed) => return Err(Failed),
        }
    }
    Ok(at)
}

/// Reads the next stripe of a file, and says how many bytes it has. Where the file ends in it, zeros fill it up.
pub(crate) fn read_stripe<S: Source>(source: &mut S, stripe: &mut [u8]) -> Result<usize, Failed>
    ensures within { IfOk result (λ n. n ≤ length stripe.new) }
    ensures handed_out { IfOk result (λ n. HandsOut (S.given source.old) (S.left source.old) (take n stripe.new) (S.given source.new) (S.left source.new)) }
    ensures filled { IfOk result (λ n. stripe.new ≡ padded (length stripe.new) (take n stripe.new)) }
    ensures told { IfOk result (λ n. n < length stripe.new → S.ended source.new ≡ true) }
    ensures spent { IfOk result (λ n. n < length stripe.new → IsSpent (S.left source.new)) }
    ensures cause { OnErr result (Rises (S.faults source.old) (S.faults source.new)) }
    ensures steady { OnOk result (S.faults source.new ≡ S.faults source.old) }
    ensures count { S.faults source.old ≤ S.faults source.new }
{
    let n = fill(source, stripe)?;
    stripe[n..].fill(0);
    Ok(n)
}
