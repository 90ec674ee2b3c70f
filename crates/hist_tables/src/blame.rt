//! The fault of a cause that fails a test, and the test of the downs that a server told.
ghost use Rattle.std.specs.Prelude.{◌≡◌};
ghost use Rattle.store_map.specs.declared.script.Script.{Script};
ghost use Rattle.hist_rules.specs.First.{unless};
ghost use Rattle.hist_rules.specs.Counts.{downs};
ghost use Rattle.hist_rules.specs.MissingChunk.{is_told_downs};
ghost use Rattle.hist_rules.specs.declared.verdict.Verdict.TheVariants.{BadCause};
ghost use Rattle.hist_tables.specs.Losses.{AreDowns};

use crate::operator_counts::OperatorCounts;
use hist_rules::Verdict;
use store_map::CallName;

/// The fault of a call's cause, unless a test of it holds.
pub fn blame_unless(holds: bool, call: CallName, first: u64, second: u64) -> Option<Verdict>
    ensures { result ≡ unless holds (BadCause call first second) }
{
    if holds {
        None
    } else {
        Some(Verdict::BadCause {
            call,
            first,
            second,
        })
    }
}

/// Whether a server can have told that it was made away so often.
pub fn downs_fit(
    counted: &OperatorCounts,
    call: CallName,
    server: u64,
    told: u64,
) -> Option<Verdict>
    ensures { (script : Script) → AreDowns script counted.now
        → result ≡ unless (is_told_downs script server told) (BadCause call (downs script server) told) }
{
    let most = counted.of(server);
    blame_unless(1 <= told && told <= most, call, most, told)
}
