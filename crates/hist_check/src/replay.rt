//! The rule on replies: they are the plain map's, where the calls are made in the history's order.
ghost use Rattle.std.specs.Prelude.{◌≡◌, None, IfOk};
ghost use Rattle.std.specs.List.{zip};
ghost use Rattle.store_map.specs.History.{replies_from, apply_all};
ghost use Rattle.hist_rules.specs.First.{first_fault};
ghost use Rattle.hist_rules.specs.RepliesMatch.{reply_matches, calls_in};

use crate::replies::shows_reply;
use hist_rules::Verdict;
use hist_tables::call_of;
use std::alloc::AllocError;
use store_map::{CallName, HLine, ObjectMap, Reply, Script};

// Whether the line shows the map's reply.
fn reply_matches(script: &Script, line: &HLine, reply: Reply) -> Result<Option<Verdict>, AllocError>
    ensures { IfOk result (λ found. found ≡ reply_matches script.now (line.now, reply)) }
{
    if shows_reply(call_of(script, line.call), &reply, &line.reply) {
        return Ok(None);
    }
    Ok(Some(Verdict::Differs {
        call: CallName::Client(line.call),
        expected: reply,
        got: line.reply.copy()?,
    }))
}

/// Makes the history's calls on the map, up to the first line that shows another reply.
pub fn replay(
    script: &Script,
    lines: &[HLine],
    map: &mut ObjectMap,
) -> Result<Option<Verdict>, AllocError>
    ensures found { IfOk result (λ found. found ≡ first_fault (reply_matches script.now)
        (zip lines.now (replies_from map.old.max (calls_in script.now lines.now) map.old.objects))) }
    ensures objects { IfOk result (λ found. found ≡ None
        → map.new.objects ≡ apply_all map.old.max (calls_in script.now lines.now) map.old.objects) }
{
    let mut replied = 0;
    for line in lines {
        let Some(call) = call_of(script, line.call) else {
            continue;
        };
        let reply = map.apply(call)?;
        if let Some(fault) = reply_matches(script, &lines[replied], reply)? {
            return Ok(Some(fault));
        }
        replied += 1;
    }
    Ok(None)
}
