//! The rule that points rise in the history, and so do each client's call numbers.
ghost use Rattle.std.specs.Prelude.{◌≡◌, List, IfOk, find, nat_eq};
ghost use Rattle.std.specs.Option.{option_map};
ghost use Rattle.std.specs.List.{slice_get};
ghost use Rattle.hist_rules.specs.First.{first_fault_along};
ghost use Rattle.hist_rules.specs.PointsRise.{line_rises};
ghost use Rattle.store_map.specs.declared.line.HLine.{HLine};

use hist_rules::Verdict;
use hist_tables::ActorTable;
use std::alloc::{AllocError, Global};
use store_map::{CallName, HLine};

// Whether a line's point is above the point before, and its number above its client's number
// before.
fn line_rises(point: Option<u64>, number: Option<u64>, line: &HLine) -> Option<Verdict>
    ensures { (before : List HLine) → point ≡ option_map (λ other. other.point) (slice_get before 0)
        → number ≡ option_map (λ other. other.call.number) (find (λ other. nat_eq line.now.call.client other.call.client) before)
        → result ≡ line_rises before line.now }
{
    let call = CallName::Client(line.call);
    if let Some(before) = point {
        if before >= line.point {
            return Some(Verdict::Misplaced {
                call,
                first: before,
                second: line.point,
            });
        }
    }
    let second = u64::from(line.call.number);
    match number {
        Some(first) if first >= second => Some(Verdict::Misplaced {
            call,
            first,
            second,
        }),
        _ => None,
    }
}

/// The first line that is too low.
pub fn find_fall(alloc: Global, lines: &[HLine]) -> Result<Option<Verdict>, AllocError>
    ensures { IfOk result (λ found. found ≡ first_fault_along line_rises lines.now) }
{
    let mut point = None;
    let mut numbers = ActorTable::new(alloc);
    for line in lines {
        let call = CallName::Client(line.call);
        if let Some(fault) = line_rises(point, numbers.get(call), line) {
            return Ok(Some(fault));
        }
        point = Some(line.point);
        numbers.set(call, u64::from(line.call.number))?;
    }
    Ok(None)
}
