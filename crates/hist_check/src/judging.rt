//! The verdict: the rules in their order, up to the first that is broken.
ghost use Rattle.std.specs.Prelude.{◌≡◌, ◌<◌, ◌^◌, [], ◌∷◌, length, IfOk, None};
ghost use Rattle.store_map.specs.History.{map_after};
ghost use Rattle.store_map.specs.Limits.{size_of};
ghost use Rattle.hist_rules.specs.First.{first_of};
ghost use Rattle.hist_rules.specs.Named.{HasFewLines, answered_calls};
ghost use Rattle.hist_rules.specs.CallsExist.{calls_exist};
ghost use Rattle.hist_rules.specs.PointsRise.{points_rise};
ghost use Rattle.hist_rules.specs.RepliesMatch.{history_calls};
ghost use Rattle.hist_rules.specs.CallsInOrder.{calls_in_order};
ghost use Rattle.hist_rules.specs.OneOpenCall.{one_open_call};
ghost use Rattle.hist_rules.specs.LostChunks.{lost_chunks};
ghost use Rattle.hist_rules.specs.LostRaces.{lost_races};
ghost use Rattle.hist_rules.specs.GivenUp.{given_up};
ghost use Rattle.hist_rules.specs.CausesNamed.{causes_named};
ghost use Rattle.hist_rules.specs.TakesHaveCalls.{takes_have_calls};
ghost use Rattle.hist_rules.specs.ObjectsListed.{objects_listed};
ghost use Rattle.hist_rules.specs.TakesAddUp.{takes_add_up};
ghost use Rattle.hist_rules.specs.Verdict.{fault_of, verdict_of};

use crate::calls_exist::find_made_up;
use crate::given_up::find_false_reap;
use crate::object_lines::find_wrong_object;
use crate::open_calls::find_wrong_open;
use crate::order::find_wrong_answer;
use crate::races::find_false_race;
use crate::replay::replay;
use crate::results::find_false_result;
use crate::rising::find_fall;
use crate::sums::find_wrong_sum;
use crate::unlisted::find_unlisted;
use hist_rules::Verdict;
use hist_tables::{CallSet, find_false_loss};
use std::alloc::{AllocError, Global};
use store_map::{ObjectMap, Script, Transcript};

// The first call that isn't the script's, or else the first line that is too low.
fn find_wrong_line(
    alloc: Global,
    script: &Script,
    transcript: &Transcript,
) -> Result<Option<Verdict>, AllocError>
    ensures { IfOk result (λ found. found ≡ first_of (calls_exist script.now transcript.now ∷ points_rise transcript.now ∷ [])) }
{
    if let Some(fault) = find_made_up(script, transcript) {
        return Ok(Some(fault));
    }
    find_fall(alloc, transcript.history.as_slice())
}

// The first answer that is out of order, or else the first call without a reply that is.
fn find_wrong_order(
    alloc: Global,
    script: &Script,
    transcript: &Transcript,
) -> Result<Option<Verdict>, AllocError>
    requires few { length (answered_calls transcript.now) < 2 ^ 32 }
    ensures { IfOk result (λ found. found ≡ first_of (calls_in_order transcript.now ∷ one_open_call script.now transcript.now ∷ [])) }
{
    let answered = CallSet::of_answers(alloc, transcript)?;
    if let Some(fault) = find_wrong_answer(alloc, transcript, &answered)? {
        return Ok(Some(fault));
    }
    find_wrong_open(alloc, script, transcript, &answered)
}

// The first refusal or result that can't be: for lost chunks, then for lost races, then for a call
// that was given up, then the results of rebuilds.
fn find_false_cause(
    alloc: Global,
    script: &Script,
    transcript: &Transcript,
) -> Result<Option<Verdict>, AllocError>
    requires rising { points_rise transcript.now ≡ None }
    ensures { IfOk result (λ found. found ≡ first_of (lost_chunks script.now transcript.now ∷ lost_races script.now transcript.now
        ∷ given_up script.now transcript.now ∷ causes_named script.now transcript.now ∷ [])) }
{
    if let Some(fault) = find_false_loss(alloc, script, transcript)? {
        return Ok(Some(fault));
    }
    if let Some(fault) = find_false_race(script, transcript) {
        return Ok(Some(fault));
    }
    if let Some(fault) = find_false_reap(alloc, script, transcript)? {
        return Ok(Some(fault));
    }
    find_false_result(alloc, script, transcript)
}

// The first wrong line at the end, where the map is what the history leads to.
fn find_wrong_end(
    alloc: Global,
    script: &Script,
    transcript: &Transcript,
    map: &ObjectMap,
) -> Result<Option<Verdict>, AllocError>
    requires map { map.now.objects ≡ map_after (size_of script.now) (history_calls script.now transcript.now) }
    ensures { IfOk result (λ found. found ≡ first_of (takes_have_calls transcript.now ∷ objects_listed script.now transcript.now ∷ takes_add_up script.now transcript.now ∷ [])) }
{
    if let Some(fault) = find_unlisted(alloc, transcript)? {
        return Ok(Some(fault));
    }
    if let Some(fault) = find_wrong_object(map, transcript.objects.as_slice())? {
        return Ok(Some(fault));
    }
    find_wrong_sum(alloc, script, transcript)
}

// The fault of the first broken rule, where the lines are right, by a map without objects.
fn find_fault_by(
    alloc: Global,
    script: &Script,
    transcript: &Transcript,
    map: &mut ObjectMap,
) -> Result<Option<Verdict>, AllocError>
    requires few { length (answered_calls transcript.now) < 2 ^ 32 }
    requires lines { first_of (calls_exist script.now transcript.now ∷ points_rise transcript.now ∷ []) ≡ None }
    requires rising { points_rise transcript.now ≡ None }
    requires map { map.old ≡ record { max = size_of script.now; objects = [] } }
    ensures { IfOk result (λ found. found ≡ fault_of script.now transcript.now) }
{
    if let Some(fault) = replay(script, transcript.history.as_slice(), map)? {
        return Ok(Some(fault));
    }
    if let Some(fault) = find_wrong_order(alloc, script, transcript)? {
        return Ok(Some(fault));
    }
    if let Some(fault) = find_false_cause(alloc, script, transcript)? {
        return Ok(Some(fault));
    }
    find_wrong_end(alloc, script, transcript, map)
}

// The fault of the first rule that is broken.
fn find_fault(
    alloc: Global,
    script: &Script,
    transcript: &Transcript,
) -> Result<Option<Verdict>, AllocError>
    requires few { length (answered_calls transcript.now) < 2 ^ 32 }
    ensures { IfOk result (λ found. found ≡ fault_of script.now transcript.now) }
{
    if let Some(fault) = find_wrong_line(alloc, script, transcript)? {
        return Ok(Some(fault));
    }
    let mut map = ObjectMap::new(alloc, script.max_size());
    let found = find_fault_by(alloc, script, transcript, &mut map);
    drop(map);
    found
}

/// Whether the transcript can be that of a run of the script, and the first fault where it can't.
pub fn check(alloc: Global, script: &Script, transcript: &Transcript) -> Result<Verdict, AllocError>
    requires few { HasFewLines transcript.now }
    ensures { IfOk result (λ verdict. verdict ≡ verdict_of script.now transcript.now) }
{
    let found = find_fault(alloc, script, transcript)?;
    Ok(found.unwrap_or(Verdict::Legal))
}
