//! The rule on calls that were unavailable, of clients and of repairers.
ghost use Rattle.std.specs.Prelude.{◌≡◌, IfOk};
ghost use Rattle.hist_rules.specs.First.{first_fault};
ghost use Rattle.hist_rules.specs.LostChunks.{lost_chunks};
ghost use Rattle.hist_tables.specs.Losses.{AreLosses};
ghost use Rattle.hist_tables.specs.Lines.{refusal_for_loss, result_for_loss};

use crate::chunks_missing::{Losses, chunks_lost};
use hist_rules::Verdict;
use std::alloc::{AllocError, Global};
use store_map::{CallName, Cause, RLine, RepairResult, Script, Transcript, XLine};

// Whether a client's call can have been unavailable, where its line says so.
fn refusal_for_loss(script: &Script, losses: &Losses, line: &XLine) -> Option<Verdict>
    requires losses { AreLosses script.now losses.now }
    ensures { result ≡ refusal_for_loss script.now line.now }
{
    match &line.cause {
        Cause::Unavailable { missing, .. } => {
            chunks_lost(
                script,
                losses,
                CallName::Client(line.call),
                missing.as_slice(),
            )
        }
        _ => None,
    }
}

// Whether a rebuild can have been unavailable, where its line says so.
fn result_for_loss(script: &Script, losses: &Losses, line: &RLine) -> Option<Verdict>
    requires losses { AreLosses script.now losses.now }
    ensures { result ≡ result_for_loss script.now line.now }
{
    match &line.result {
        RepairResult::Unavailable { missing, .. } => {
            chunks_lost(
                script,
                losses,
                CallName::Repairer(line.call),
                missing.as_slice(),
            )
        }
        _ => None,
    }
}

fn find_false_refusal(script: &Script, losses: &Losses, lines: &[XLine]) -> Option<Verdict>
    requires losses { AreLosses script.now losses.now }
    ensures { result ≡ first_fault (refusal_for_loss script.now) lines.now }
{
    for line in lines {
        if let Some(fault) = refusal_for_loss(script, losses, line) {
            return Some(fault);
        }
    }
    None
}

fn find_false_failure(script: &Script, losses: &Losses, lines: &[RLine]) -> Option<Verdict>
    requires losses { AreLosses script.now losses.now }
    ensures { result ≡ first_fault (result_for_loss script.now) lines.now }
{
    for line in lines {
        if let Some(fault) = result_for_loss(script, losses, line) {
            return Some(fault);
        }
    }
    None
}

/// The fault of the first call that is called unavailable and can't have been.
pub fn find_false_loss(
    alloc: Global,
    script: &Script,
    transcript: &Transcript,
) -> Result<Option<Verdict>, AllocError>
    ensures { IfOk result (λ found. found ≡ lost_chunks script.now transcript.now) }
{
    let losses = Losses::count(alloc, script)?;
    if let Some(fault) = find_false_refusal(script, &losses, transcript.refused.as_slice()) {
        return Ok(Some(fault));
    }
    Ok(find_false_failure(script, &losses, transcript.repairs.as_slice()))
}
