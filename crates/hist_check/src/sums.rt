//! The rule on the servers' lines at the end: each gave what all calls took of it, and was emptied
//! as often as the schedule says.
ghost use Rattle.std.specs.Prelude.{◌≡◌, ◌+◌, ◌<◌, ◌≤◌, ◌^◌, get_or, sum_by, IfOk};
ghost use Rattle.store_map.specs.declared.line.GLine.{GLine};
ghost use Rattle.hist_rules.specs.TakesAddUp.{server_adds_up, takes_add_up};
ghost use Rattle.hist_tables.specs.Losses.{AreWipes};

use hist_rules::Verdict;
use hist_tables::OperatorCounts;
use std::alloc::{AllocError, Global};
use store_map::{GLine, Script, TLine, Transcript};

// What the call took of a server.
fn taken_by(line: &GLine, server: u32) -> u64
    ensures { result ≡ get_or line.now.takes server 0 }
{
    let takes = line.takes.as_slice();
    takes.get(server as usize).copied().unwrap_or(0)
}

fn add(sum: u128, taken: u64) -> u128
    requires room { sum + 2 ^ 64 ≤ 2 ^ 128 }
    ensures value { result ≡ sum + taken }
    ensures step { result < sum + 2 ^ 64 }
{
    sum + u128::from(taken)
}

// What all calls took of a server. The sum may pass 64 bits.
fn taken_of(lines: &[GLine], server: u32) -> u128
    ensures { result ≡ sum_by (λ (line : GLine). get_or line.takes server 0) lines.now }
{
    let mut sum = 0;
    for line in lines {
        sum = add(sum, taken_by(line, server));
    }
    sum
}

fn copy_line(line: &TLine) -> TLine
    ensures { result ≡ line.now }
{
    TLine {
        server: line.server,
        taken: line.taken,
        held: line.held,
        epoch: line.epoch,
    }
}

// Whether a server gave what all calls took of it, and was emptied so often.
fn server_adds_up(
    script: &Script,
    transcript: &Transcript,
    counted: &OperatorCounts,
    line: &TLine,
) -> Option<Verdict>
    requires wipes { AreWipes script.now counted.now }
    ensures { result ≡ server_adds_up script.now transcript.now line.now }
{
    let taken = taken_of(transcript.takes.as_slice(), line.server);
    let epoch = counted.of(u64::from(line.server));
    let printed = u128::from(line.taken);
    if printed == taken && line.epoch == epoch {
        return None;
    }
    Some(Verdict::BadSums {
        taken,
        epoch,
        got: copy_line(line),
    })
}

/// The fault of the first server whose line is wrong. Each line of takes has one number for each
/// server, so each number is read once.
pub fn find_wrong_sum(
    alloc: Global,
    script: &Script,
    transcript: &Transcript,
) -> Result<Option<Verdict>, AllocError>
    ensures { IfOk result (λ found. found ≡ takes_add_up script.now transcript.now) }
{
    let counted = OperatorCounts::wipes(alloc, script)?;
    let lines = transcript.servers.as_slice();
    for line in lines {
        if let Some(fault) = server_adds_up(script, transcript, &counted, line) {
            return Ok(Some(fault));
        }
    }
    Ok(None)
}
