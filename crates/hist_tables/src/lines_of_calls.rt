//! The calls that a transcript's lines name, those without a reply, and how many are answered.
ghost use Rattle.std.specs.Prelude.{◌≡◌, ◌++◌, ◌<◌, ◌^◌, Bool, true, false, length, map, filter, IfOk, OnOk};
ghost use Rattle.store_map.specs.declared.call_name.CallName.{CallName};
ghost use Rattle.store_map.specs.declared.call_name.CallName.TheVariants.{Client, Repairer};
ghost use Rattle.hist_rules.specs.Named.{answered_calls, is_reply};

use std::alloc::{AllocError, Global};
use store_map::{CallName, GLine, HLine, OLine, RLine, Shown, Transcript, XLine};

/// A line that names a call.
pub trait NamesCall {
    ghost call: { Self → CallName };

    ghost is_answer: { Self → Bool };

    /// The call.
    fn call(&self) -> CallName
        ensures { result ≡ call self.now };

    /// Whether the line says that the call was answered or refused, or has a result.
    fn is_answer(&self) -> bool
        ensures { result ≡ is_answer self.now };
}

impl NamesCall for HLine {
    ghost call = { λ line. Client line.call };

    ghost is_answer = { λ line. is_reply line.reply };

    fn call(&self) -> CallName {
        CallName::Client(self.call)
    }

    fn is_answer(&self) -> bool {
        is_reply(&self.reply)
    }
}

impl NamesCall for XLine {
    ghost call = { λ line. Client line.call };

    ghost is_answer = { λ line. true };

    fn call(&self) -> CallName {
        CallName::Client(self.call)
    }

    fn is_answer(&self) -> bool {
        true
    }
}

impl NamesCall for RLine {
    ghost call = { λ line. Repairer line.call };

    ghost is_answer = { λ line. true };

    fn call(&self) -> CallName {
        CallName::Repairer(self.call)
    }

    fn is_answer(&self) -> bool {
        true
    }
}

impl NamesCall for OLine {
    ghost call = { λ line. line.call };

    ghost is_answer = { λ line. false };

    fn call(&self) -> CallName {
        self.call
    }

    fn is_answer(&self) -> bool {
        false
    }
}

impl NamesCall for GLine {
    ghost call = { λ line. line.call };

    ghost is_answer = { λ line. false };

    fn call(&self) -> CallName {
        self.call
    }

    fn is_answer(&self) -> bool {
        false
    }
}

// Appends the lines' calls.
fn push_calls<L: NamesCall>(calls: &mut Vec<CallName>, lines: &[L]) -> Result<(), AllocError>
    ensures { OnOk result (calls.new.items ≡ calls.old.items ++ map L.call lines.now) }
{
    for line in lines {
        calls.push(line.call())?;
    }
    Ok(())
}

fn is_reply(shown: &Shown) -> bool
    ensures { result ≡ is_reply shown.now }
{
    matches!(shown, Shown::Reply(_))
}

/// The calls without a reply.
pub fn unanswered_calls(alloc: Global, transcript: &Transcript) -> Result<Vec<CallName>, AllocError>
    ensures { IfOk result (λ calls. calls.items ≡ map (λ line. line.call) transcript.now.unanswered) }
{
    let mut calls = Vec::new(alloc);
    push_calls(&mut calls, transcript.unanswered.as_slice())?;
    Ok(calls)
}

// How many lines have a reply.
fn count_replied(lines: &[HLine]) -> usize
    ensures { result ≡ length (filter (λ line. is_reply line.reply) lines.now) }
{
    let mut count = 0;
    for line in lines {
        if is_reply(&line.reply) {
            count += 1;
        }
    }
    count
}

/// How many calls were answered or refused, and how many rebuilds have a result.
pub fn count_answers(transcript: &Transcript) -> usize
    requires few { length (answered_calls transcript.now) < 2 ^ 32 }
    ensures { result ≡ length (answered_calls transcript.now) }
{
    let replied = count_replied(transcript.history.as_slice());
    replied + transcript.refused.len() + transcript.repairs.len()
}
