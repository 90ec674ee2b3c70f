//! The rule on contended calls: each is a write that lost all its tries to changes of its object.
ghost use Rattle.std.specs.Prelude.{◌≡◌, ℕ, List, None, option_and_then, slice_get};
ghost use Rattle.std.specs.Option.{option_copied};
ghost use Rattle.store_map.specs.declared.call_name.CallName.TheVariants.{Client};
ghost use Rattle.hist_rules.specs.Calls.{call_of};
ghost use Rattle.hist_rules.specs.First.{first_fault_along};
ghost use Rattle.hist_rules.specs.PointsRise.{points_rise};
ghost use Rattle.hist_rules.specs.LostRaces.{written_name, begins_later, race_lost, races_lost, cause_of_races, lost_races};

use crate::changes::is_change_point;
use hist_rules::Verdict;
use hist_tables::{blame_unless, call_of};
use store_map::{Call, CallName, Cause, ClientCall, Name, Script, Transcript, XLine};

// The name of the object that the call writes, where it is a write.
fn name_written(script: &Script, call: ClientCall) -> Option<&Name>
    ensures { option_copied result ≡ option_and_then written_name (call_of script.now call) }
{
    match call_of(script, call)? {
        Call::Write { name, .. } => Some(name),
        _ => None,
    }
}

// Whether a race begins no earlier than the one before was lost.
fn begins_later(call: CallName, before: Option<(u64, u64)>, looked_at: u64) -> Option<Verdict>
    ensures { result ≡ begins_later call before looked_at }
{
    let (_, lost) = before?;
    blame_unless(lost <= looked_at, call, lost, looked_at)
}

// Whether the write can have lost this race, after the one before.
fn race_lost(
    script: &Script,
    transcript: &Transcript,
    call: CallName,
    name: &Name,
    before: Option<(u64, u64)>,
    pair: (u64, u64),
) -> Option<Verdict>
    requires rising { points_rise transcript.now ≡ None }
    ensures { (races : List (ℕ × ℕ)) → before ≡ slice_get races 0
        → result ≡ race_lost script.now transcript.now call name.now races pair }
{
    let (looked_at, newer) = pair;
    if let Some(fault) = blame_unless(looked_at < newer, call, looked_at, newer) {
        return Some(fault);
    }
    if let Some(fault) = begins_later(call, before, looked_at) {
        return Some(fault);
    }
    let are_changes = is_change_point(script, transcript, name, looked_at)
        && is_change_point(script, transcript, name, newer);
    blame_unless(are_changes, call, 1, 0)
}

// The fault of the first race that the write can't have lost.
fn find_false_pair(
    script: &Script,
    transcript: &Transcript,
    call: CallName,
    name: &Name,
    pairs: &[(u64, u64)],
) -> Option<Verdict>
    requires rising { points_rise transcript.now ≡ None }
    ensures { result ≡ first_fault_along (race_lost script.now transcript.now call name.now) pairs.now }
{
    let mut before = None;
    for pair in pairs {
        if let Some(fault) = race_lost(script, transcript, call, name, before, *pair) {
            return Some(fault);
        }
        before = Some(*pair);
    }
    None
}

// Whether the call is a write, and can have lost so many races.
fn races_lost(
    script: &Script,
    transcript: &Transcript,
    called: ClientCall,
    pairs: &[(u64, u64)],
) -> Option<Verdict>
    requires rising { points_rise transcript.now ≡ None }
    ensures { result ≡ races_lost script.now transcript.now (Client called) pairs.now (option_and_then written_name (call_of script.now called)) }
{
    let call = CallName::Client(called);
    let Some(name) = name_written(script, called) else {
        return Some(Verdict::BadCause {
            call,
            first: 0,
            second: 1,
        });
    };
    let tries = u64::from(script.max_tries());
    let count = pairs.len() as u64;
    if let Some(fault) = blame_unless(count == tries, call, tries, count) {
        return Some(fault);
    }
    find_false_pair(script, transcript, call, name, pairs)
}

// Whether a client's call can have lost its races, where its line says so.
fn cause_of_races(script: &Script, transcript: &Transcript, line: &XLine) -> Option<Verdict>
    requires rising { points_rise transcript.now ≡ None }
    ensures { result ≡ cause_of_races script.now transcript.now line.now.call line.now.cause }
{
    match &line.cause {
        Cause::Contended { pairs } => races_lost(script, transcript, line.call, pairs.as_slice()),
        _ => None,
    }
}

/// The fault of the first refusal for races that can't have been lost.
pub fn find_false_race(script: &Script, transcript: &Transcript) -> Option<Verdict>
    requires rising { points_rise transcript.now ≡ None }
    ensures { result ≡ lost_races script.now transcript.now }
{
    let lines = transcript.refused.as_slice();
    for line in lines {
        if let Some(fault) = cause_of_races(script, transcript, line) {
            return Some(fault);
        }
    }
    None
}
