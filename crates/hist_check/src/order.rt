//! The rule on the order of answers: each actor's answered calls are its first ones, each answered
//! once.
ghost use Rattle.std.specs.Prelude.{◌≡◌, ◌<◌, ◌≤◌, ◌^◌, ◌↔◌, ℕ, List, true, false, None, length, map, filter, IsTrue, IfOk, OnOk};
ghost use Rattle.hist_rules.specs.Calls.{with_number, number_of, is_named};
ghost use Rattle.hist_rules.specs.CallsInOrder.{follows, follows_answered, is_first_answer, calls_in_order};
ghost use Rattle.hist_rules.specs.Named.{answered_calls};
ghost use Rattle.store_map.specs.declared.call_name.CallName.{CallName};
ghost use Rattle.hist_tables.specs.Tables.{has, value_at, IsSetOf};
ghost use Rattle.hist_check.specs.Reached.{AreReached};
ghost use Rattle.hist_check.specs.Searched.{IsSearched};

use crate::least_missing::least_missing;
use hist_rules::Verdict;
use hist_tables::{ActorTable, CallSet, NamesCall, number_of, with_number};
use std::alloc::{AllocError, Global};
use store_map::{CallName, Transcript};

// Whether the set has the calls of the call's actor from a number up to another.
fn has_between(set: &CallSet, call: CallName, from: u64, to: u32) -> bool
    ensures { IsTrue result ↔ ((number : ℕ) → from ≤ number → number < to → has set.now (with_number call number) ≡ true) }
{
    for number in from..u64::from(to) {
        if !set.contains(with_number(call, number as u32)) {
            return false;
        }
    }
    true
}

/// Whether all earlier calls of the call's actor are answered. The set is that of the answered
/// calls. The table keeps how far each actor's calls were found, so that no call is looked up twice.
pub fn follows(
    transcript: &Transcript,
    set: &CallSet,
    reached: &mut ActorTable,
    call: CallName,
) -> Result<bool, AllocError>
    requires set { IsSetOf set.now (answered_calls transcript.now) }
    requires reached { AreReached (answered_calls transcript.now) reached.old }
    ensures holds { IfOk result (λ holds. holds ≡ follows (answered_calls transcript.now) call) }
    ensures reached { OnOk result (AreReached (answered_calls transcript.now) reached.new) }
{
    let from = reached.get(call).unwrap_or(0);
    let number = number_of(call);
    if u64::from(number) <= from {
        return Ok(true);
    }
    if !has_between(set, call, from, number) {
        return Ok(false);
    }
    reached.set(call, u64::from(number))?;
    Ok(true)
}

// Whether the call stands behind its actor's earlier answers.
fn follows_answered(
    transcript: &Transcript,
    set: &CallSet,
    reached: &mut ActorTable,
    call: CallName,
) -> Result<Option<Verdict>, AllocError>
    requires few { length (answered_calls transcript.now) < 2 ^ 32 }
    requires set { IsSetOf set.now (answered_calls transcript.now) }
    requires reached { AreReached (answered_calls transcript.now) reached.old }
    ensures found { IfOk result (λ found. found ≡ follows_answered (answered_calls transcript.now) call) }
    ensures reached { OnOk result (AreReached (answered_calls transcript.now) reached.new) }
{
    if follows(transcript, set, reached, call)? {
        return Ok(None);
    }
    Ok(Some(Verdict::Misplaced {
        call,
        first: least_missing(transcript, set, call),
        second: u64::from(number_of(call)),
    }))
}

// Whether no earlier line answers the call.
fn is_first_answer(before: &CallSet, call: CallName) -> Option<Verdict>
    ensures { (calls : List CallName) → IsSetOf before.now calls → result ≡ is_first_answer calls call }
{
    if !before.contains(call) {
        return None;
    }
    let number = u64::from(number_of(call));
    Some(Verdict::Misplaced {
        call,
        first: number + 1,
        second: number,
    })
}

// The first of the lines with an answer that stands out of order. The set is that of all answered
// calls; the other one has those before, and gets those of the lines.
fn find_disorder<L: NamesCall>(
    transcript: &Transcript,
    set: &CallSet,
    reached: &mut ActorTable,
    before: &mut CallSet,
    lines: &[L],
) -> Result<Option<Verdict>, AllocError>
    requires few { length (answered_calls transcript.now) < 2 ^ 32 }
    requires set { IsSetOf set.now (answered_calls transcript.now) }
    requires reached { AreReached (answered_calls transcript.now) reached.old }
    ensures found { (earlier rest : List CallName) → IsSetOf before.old earlier
        → IfOk result (λ found. IsSearched (answered_calls transcript.now) earlier (map L.call (filter L.is_answer lines.now)) rest found before.new) }
    ensures reached { OnOk result (AreReached (answered_calls transcript.now) reached.new) }
{
    for line in lines {
        if !line.is_answer() {
            continue;
        }
        let call = line.call();
        if let Some(fault) = follows_answered(transcript, set, reached, call)? {
            return Ok(Some(fault));
        }
        if let Some(fault) = is_first_answer(before, call) {
            return Ok(Some(fault));
        }
        before.insert(call)?;
    }
    Ok(None)
}

// The first answer that stands out of order, by a table and a set without calls. The first set is
// that of the answered calls.
fn find_wrong_answer_by(
    transcript: &Transcript,
    set: &CallSet,
    reached: &mut ActorTable,
    before: &mut CallSet,
) -> Result<Option<Verdict>, AllocError>
    requires few { length (answered_calls transcript.now) < 2 ^ 32 }
    requires set { IsSetOf set.now (answered_calls transcript.now) }
    requires reached { (call : CallName) → value_at reached.old call ≡ None }
    requires before { (call : CallName) → has before.old call ≡ false }
    ensures { IfOk result (λ found. found ≡ calls_in_order transcript.now) }
{
    let replies = transcript.history.as_slice();
    if let Some(fault) = find_disorder(transcript, set, reached, before, replies)? {
        return Ok(Some(fault));
    }
    let refusals = transcript.refused.as_slice();
    if let Some(fault) = find_disorder(transcript, set, reached, before, refusals)? {
        return Ok(Some(fault));
    }
    let results = transcript.repairs.as_slice();
    find_disorder(transcript, set, reached, before, results)
}

/// The first answer that stands out of order. The set is that of the answered calls.
pub fn find_wrong_answer(
    alloc: Global,
    transcript: &Transcript,
    set: &CallSet,
) -> Result<Option<Verdict>, AllocError>
    requires few { length (answered_calls transcript.now) < 2 ^ 32 }
    requires set { IsSetOf set.now (answered_calls transcript.now) }
    ensures { IfOk result (λ found. found ≡ calls_in_order transcript.now) }
{
    let mut reached = ActorTable::new(alloc);
    let mut before = CallSet::new(alloc);
    find_wrong_answer_by(transcript, set, &mut reached, &mut before)
}
