//! Whether an object was changed at a point, by the lines of the history.
ghost use Rattle.std.specs.Prelude.{◌≡◌, None};
ghost use Rattle.hist_rules.specs.PointsRise.{points_rise};
ghost use Rattle.hist_rules.specs.Named.{is_effect, changes_name, is_change_line, is_change_point};

use hist_tables::call_of;
use store_map::{Call, HLine, Name, Reply, Script, Shown, Transcript};

fn is_effect(shown: &Shown) -> bool
    ensures { result ≡ is_effect shown.now }
{
    match shown {
        Shown::Reply(reply) => matches!(reply, Reply::Done),
        Shown::Unfinished => true,
    }
}

fn changes_name(name: &Name, call: &Call) -> bool
    ensures { result ≡ changes_name name.now call.now }
{
    match call {
        Call::Put { name: other, .. } => *name == *other,
        Call::Write { name: other, .. } => *name == *other,
        Call::Delete { name: other } => *name == *other,
        _ => false,
    }
}

fn is_change_line(script: &Script, name: &Name, line: &HLine) -> bool
    ensures { result ≡ is_change_line script.now name.now line.now }
{
    if !is_effect(&line.reply) {
        return false;
    }
    match call_of(script, line.call) {
        Some(call) => changes_name(name, call),
        None => false,
    }
}

/// Whether a change of the object with this name stands at the point. The line is found by
/// bisection, since points rise.
pub fn is_change_point(script: &Script, transcript: &Transcript, name: &Name, point: u64) -> bool
    requires rising { points_rise transcript.now ≡ None }
    ensures { result ≡ is_change_point script.now transcript.now name.now point }
{
    let lines = transcript.history.as_slice();
    let place = lines.partition_point(|line| line.point < point);
    match lines.get(place) {
        Some(line) => line.point == point && is_change_line(script, name, line),
        None => false,
    }
}
