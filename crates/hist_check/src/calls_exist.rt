//! The rule that each line's call is one of the script's.
ghost use Rattle.std.specs.Prelude.{◌≡◌};
ghost use Rattle.hist_rules.specs.First.{first_fault};
ghost use Rattle.hist_rules.specs.CallsExist.{call_exists, calls_exist};

use hist_rules::Verdict;
use hist_tables::{NamesCall, count_calls, number_of};
use store_map::{CallName, Script, Transcript};

fn call_exists(script: &Script, call: CallName) -> Option<Verdict>
    ensures { result ≡ call_exists script.now call }
{
    let count = count_calls(script, call);
    let number = number_of(call);
    if (number as usize) < count {
        None
    } else {
        Some(Verdict::Misplaced {
            call,
            first: count as u64,
            second: u64::from(number),
        })
    }
}

// The first of the lines whose call the script doesn't have.
fn find_unknown_call<L: NamesCall>(script: &Script, lines: &[L]) -> Option<Verdict>
    ensures { result ≡ first_fault (λ line. call_exists script.now (L.call line)) lines.now }
{
    for line in lines {
        if let Some(fault) = call_exists(script, line.call()) {
            return Some(fault);
        }
    }
    None
}

/// The first line whose call the script doesn't have.
pub fn find_made_up(script: &Script, transcript: &Transcript) -> Option<Verdict>
    ensures { result ≡ calls_exist script.now transcript.now }
{
    find_unknown_call(script, transcript.history.as_slice())
        .or(find_unknown_call(script, transcript.refused.as_slice()))
        .or(find_unknown_call(script, transcript.repairs.as_slice()))
        .or(find_unknown_call(script, transcript.unanswered.as_slice()))
        .or(find_unknown_call(script, transcript.takes.as_slice()))
}
