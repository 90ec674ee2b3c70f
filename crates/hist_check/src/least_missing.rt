//! The least number of an actor's calls that isn't answered.
ghost use Rattle.std.specs.Prelude.{◌≡◌, ◌<◌, ◌^◌, length};
ghost use Rattle.hist_rules.specs.CallsInOrder.{least_missing};
ghost use Rattle.hist_rules.specs.Named.{answered_calls};
ghost use Rattle.hist_tables.specs.Tables.{IsSetOf};

use hist_tables::{CallSet, count_answers, with_number};
use store_map::{CallName, Transcript};

/// The least number of the call's actor that isn't among the answered calls, of which the set is made.
pub fn least_missing(transcript: &Transcript, set: &CallSet, call: CallName) -> u64
    requires few { length (answered_calls transcript.now) < 2 ^ 32 }
    requires set { IsSetOf set.now (answered_calls transcript.now) }
    ensures { result ≡ least_missing (answered_calls transcript.now) call }
{
    let count = count_answers(transcript);
    for number in 0..count {
        if !set.contains(with_number(call, number as u32)) {
            return number as u64;
        }
    }
    count as u64
}
