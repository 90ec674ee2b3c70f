//! The rule on what rebuilds' results name: a change of the object, the stripe, the server's downs.
ghost use Rattle.std.specs.Prelude.{◌≡◌, None, IfOk, option_and_then};
ghost use Rattle.store_map.specs.declared.call_name.CallName.TheVariants.{Repairer};
ghost use Rattle.hist_rules.specs.Calls.{rebuild_of};
ghost use Rattle.hist_rules.specs.PointsRise.{points_rise};
ghost use Rattle.hist_rules.specs.CausesNamed.{result_named, causes_named};
ghost use Rattle.hist_tables.specs.Losses.{AreDowns};

use crate::changes::is_change_point;
use hist_rules::Verdict;
use hist_tables::{OperatorCounts, blame_unless, downs_fit, rebuild_of};
use std::alloc::{AllocError, Global};
use store_map::{CallName, RLine, Rebuild, RepairResult, Script, Transcript};

// Whether a rebuild's result names its own object, stripe and server.
fn result_named(
    script: &Script,
    transcript: &Transcript,
    counted: &OperatorCounts,
    line: &RLine,
    rebuild: &Rebuild,
) -> Option<Verdict>
    requires rising { points_rise transcript.now ≡ None }
    requires downs { AreDowns script.now counted.now }
    ensures { result ≡ result_named script.now transcript.now (Repairer line.now.call) line.now.result rebuild.now }
{
    let call = CallName::Repairer(line.call);
    match &line.result {
        RepairResult::Superseded { newer } => {
            let is_change = is_change_point(script, transcript, &rebuild.name, *newer);
            blame_unless(is_change, call, 1, 0)
        }
        RepairResult::Unavailable { stripe, .. } => {
            let own = u64::from(rebuild.stripe);
            blame_unless(own == *stripe, call, own, *stripe)
        }
        RepairResult::Away { downs } => {
            downs_fit(counted, call, u64::from(rebuild.server), *downs)
        }
        _ => None,
    }
}

// The same of a line, where the script has its rebuild.
fn line_named(
    script: &Script,
    transcript: &Transcript,
    counted: &OperatorCounts,
    line: &RLine,
) -> Option<Verdict>
    requires rising { points_rise transcript.now ≡ None }
    requires downs { AreDowns script.now counted.now }
    ensures { result ≡ option_and_then (result_named script.now transcript.now (Repairer line.now.call) line.now.result) (rebuild_of script.now line.now.call) }
{
    let rebuild = rebuild_of(script, line.call)?;
    result_named(script, transcript, counted, line, rebuild)
}

/// The fault of the first rebuild's result that names a change of another object, another stripe, or
/// a count of `down`s that its server never had.
pub fn find_false_result(
    alloc: Global,
    script: &Script,
    transcript: &Transcript,
) -> Result<Option<Verdict>, AllocError>
    requires rising { points_rise transcript.now ≡ None }
    ensures { IfOk result (λ found. found ≡ causes_named script.now transcript.now) }
{
    let counted = OperatorCounts::downs(alloc, script)?;
    let lines = transcript.repairs.as_slice();
    for line in lines {
        if let Some(fault) = line_named(script, transcript, &counted, line) {
            return Ok(Some(fault));
        }
    }
    Ok(None)
}
