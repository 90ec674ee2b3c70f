//! The rule that each call which took subchunks has a line that says what became of it.
ghost use Rattle.std.specs.Prelude.{◌≡◌, IfOk};
ghost use Rattle.hist_rules.specs.First.{first_fault};
ghost use Rattle.hist_rules.specs.Named.{listed_calls};
ghost use Rattle.hist_rules.specs.TakesHaveCalls.{has_call, takes_have_calls};
ghost use Rattle.hist_tables.specs.Tables.{IsSetOf};
ghost use Rattle.store_map.specs.declared.transcript.Transcript.{Transcript};

use hist_rules::Verdict;
use hist_tables::CallSet;
use std::alloc::{AllocError, Global};
use store_map::{CallName, GLine, Transcript};

// Whether a line says what became of a call that took subchunks.
fn has_call(listed: &CallSet, call: CallName) -> Option<Verdict>
    ensures { (t : Transcript) → IsSetOf listed.now (listed_calls t) → result ≡ has_call t call }
{
    if listed.contains(call) {
        None
    } else {
        Some(Verdict::Unlisted { call })
    }
}

// The first of the lines whose call isn't among those listed.
fn find_missing(listed: &CallSet, lines: &[GLine]) -> Option<Verdict>
    ensures { (t : Transcript) → IsSetOf listed.now (listed_calls t) → result ≡ first_fault (λ line. has_call t line.call) lines.now }
{
    for line in lines {
        if let Some(fault) = has_call(listed, line.call) {
            return Some(fault);
        }
    }
    None
}

/// The first call that took subchunks and has no line.
pub fn find_unlisted(alloc: Global, transcript: &Transcript) -> Result<Option<Verdict>, AllocError>
    ensures { IfOk result (λ found. found ≡ takes_have_calls transcript.now) }
{
    let listed = CallSet::of_listed(alloc, transcript)?;
    Ok(find_missing(&listed, transcript.takes.as_slice()))
}
