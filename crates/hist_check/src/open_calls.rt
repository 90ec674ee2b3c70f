//! The rule on calls without a reply: at most one of each actor, the first that isn't answered, and
//! each `open` one has its line there.
ghost use Rattle.std.specs.Prelude.{◌≡◌, ◌<◌, ◌^◌, List, Option, None, length, map, find, IfOk, OnOk};
ghost use Rattle.std.specs.Option.{option_or, option_map};
ghost use Rattle.store_map.specs.declared.call_name.CallName.TheVariants.{Client};
ghost use Rattle.hist_rules.specs.Calls.{number_of, same_actor};
ghost use Rattle.hist_rules.specs.First.{first_fault, first_fault_along};
ghost use Rattle.hist_rules.specs.Named.{answered_calls};
ghost use Rattle.hist_rules.specs.OneOpenCall.{is_unanswered, is_only_one, is_next_call, one_open_call};
ghost use Rattle.store_map.specs.declared.call_name.CallName.{CallName};
ghost use Rattle.store_map.specs.declared.transcript.Transcript.{Transcript};
ghost use Rattle.hist_tables.specs.Tables.{value_at, IsSetOf};
ghost use Rattle.hist_check.specs.Reached.{AreReached};

use crate::least_missing::least_missing;
use crate::order::follows;
use hist_rules::Verdict;
use hist_tables::{ActorTable, CallSet, count_calls, number_of, unanswered_calls};
use std::alloc::{AllocError, Global};
use store_map::{CallName, HLine, Script, Shown, Transcript};

// Whether a line without a reply has its call among those without a reply.
fn is_unanswered(script: &Script, unanswered: &CallSet, line: &HLine) -> Option<Verdict>
    ensures { (t : Transcript) → IsSetOf unanswered.now (map (λ other. other.call) t.unanswered)
        → result ≡ is_unanswered script.now t (Client line.now.call) line.now.reply }
{
    let call = CallName::Client(line.call);
    match line.reply {
        Shown::Reply(_) => None,
        Shown::Unfinished => {
            if unanswered.contains(call) {
                return None;
            }
            Some(Verdict::Misplaced {
                call,
                first: u64::from(number_of(call)),
                second: count_calls(script, call) as u64,
            })
        }
    }
}

// Whether the call is the first of its actor that isn't answered.
fn is_next_call(
    transcript: &Transcript,
    answered: &CallSet,
    reached: &mut ActorTable,
    call: CallName,
) -> Result<Option<Verdict>, AllocError>
    requires few { length (answered_calls transcript.now) < 2 ^ 32 }
    requires answered { IsSetOf answered.now (answered_calls transcript.now) }
    requires reached { AreReached (answered_calls transcript.now) reached.old }
    ensures found { IfOk result (λ found. found ≡ is_next_call (answered_calls transcript.now) call) }
    ensures reached { OnOk result (AreReached (answered_calls transcript.now) reached.new) }
{
    let follows = follows(transcript, answered, reached, call)?;
    if follows && !answered.contains(call) {
        return Ok(None);
    }
    Ok(Some(Verdict::Misplaced {
        call,
        first: least_missing(transcript, answered, call),
        second: u64::from(number_of(call)),
    }))
}

// Whether the actor has no such line before.
fn is_only_one(first: Option<u64>, call: CallName) -> Option<Verdict>
    ensures { (before : Option CallName) → first ≡ option_map number_of before → result ≡ is_only_one before call }
{
    match first {
        None => None,
        Some(first) => Some(Verdict::Misplaced {
            call,
            first,
            second: u64::from(number_of(call)),
        }),
    }
}

// The first line of the history without a reply whose call has no line of its own.
fn find_effect(script: &Script, unanswered: &CallSet, lines: &[HLine]) -> Option<Verdict>
    ensures { (t : Transcript) → IsSetOf unanswered.now (map (λ other. other.call) t.unanswered)
        → result ≡ first_fault (λ line. is_unanswered script.now t (Client line.call) line.reply) lines.now }
{
    for line in lines {
        if let Some(fault) = is_unanswered(script, unanswered, line) {
            return Some(fault);
        }
    }
    None
}

// The first call without a reply that isn't its actor's next one, by tables without an actor.
fn find_early_by(
    transcript: &Transcript,
    answered: &CallSet,
    calls: &[CallName],
    reached: &mut ActorTable,
    firsts: &mut ActorTable,
) -> Result<Option<Verdict>, AllocError>
    requires few { length (answered_calls transcript.now) < 2 ^ 32 }
    requires answered { IsSetOf answered.now (answered_calls transcript.now) }
    requires reached { (call : CallName) → value_at reached.old call ≡ None }
    requires firsts { (call : CallName) → value_at firsts.old call ≡ None }
    ensures { IfOk result (λ found. found ≡ first_fault_along (λ before call. option_or (is_only_one (find (same_actor call) before) call) (is_next_call (answered_calls transcript.now) call)) calls.now) }
{
    for call in calls {
        if let Some(fault) = is_only_one(firsts.get(*call), *call) {
            return Ok(Some(fault));
        }
        if let Some(fault) = is_next_call(transcript, answered, reached, *call)? {
            return Ok(Some(fault));
        }
        firsts.set(*call, u64::from(number_of(*call)))?;
    }
    Ok(None)
}

// The first call without a reply that isn't its actor's next one.
fn find_early(
    alloc: Global,
    transcript: &Transcript,
    answered: &CallSet,
    calls: &[CallName],
) -> Result<Option<Verdict>, AllocError>
    requires few { length (answered_calls transcript.now) < 2 ^ 32 }
    requires answered { IsSetOf answered.now (answered_calls transcript.now) }
    ensures { IfOk result (λ found. found ≡ first_fault_along (λ before call. option_or (is_only_one (find (same_actor call) before) call) (is_next_call (answered_calls transcript.now) call)) calls.now) }
{
    let mut reached = ActorTable::new(alloc);
    let mut firsts = ActorTable::new(alloc);
    find_early_by(transcript, answered, calls, &mut reached, &mut firsts)
}

/// The first line of a call without a reply that is wrong, those of the history first. The set is
/// that of the answered calls.
pub fn find_wrong_open(
    alloc: Global,
    script: &Script,
    transcript: &Transcript,
    answered: &CallSet,
) -> Result<Option<Verdict>, AllocError>
    requires few { length (answered_calls transcript.now) < 2 ^ 32 }
    requires answered { IsSetOf answered.now (answered_calls transcript.now) }
    ensures { IfOk result (λ found. found ≡ one_open_call script.now transcript.now) }
{
    let waiting = unanswered_calls(alloc, transcript)?;
    let set = CallSet::from_calls(alloc, &waiting)?;
    if let Some(fault) = find_effect(script, &set, transcript.history.as_slice()) {
        return Ok(Some(fault));
    }
    find_early(alloc, transcript, answered, &waiting)
}
