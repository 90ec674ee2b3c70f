//! Causes of refusals and results of rebuilds as fields of lines.
ghost use Rattle.std.specs.Prelude.{◌≡◌, ◌≢◌, ◌++◌, codes, IfSome, IfNone};
ghost use Rattle.transcript_text.specs.Words.{cause_text, result_text};
ghost use Rattle.transcript_read.specs.Reasons.{IsCause, IsResult, IsLost, IsPairs, lost_text, pairs_text};
ghost use Rattle.transcript_read.specs.Reads.{Reads};

use crate::field::{Field, Unread, behind, first_field};
use crate::list::read_list;
use line_grammar::is_text;
use std::alloc::Global;
use store_map::{Cause, ListOf, RepairResult, Triple};

// The stripe and the servers that `unavailable stripe` and this text spell.
fn read_lost(alloc: Global, text: &[u8]) -> Result<(u64, ListOf<Triple>), Unread>
    ensures { Reads IsLost lost_text text.now result }
{
    let (stripe, rest) = first_field(alloc, b' ', text)?;
    let Some(triples) = behind(b"missing", rest) else {
        return Err(Unread::Syntax);
    };
    let missing = read_list(alloc, triples)?;
    if missing.is_empty() {
        return Err(Unread::Syntax);
    }
    Ok((stripe, missing))
}

// The pairs that `contended` and this text spell.
fn read_pairs(alloc: Global, text: &[u8]) -> Result<ListOf<(u64, u64)>, Unread>
    ensures { Reads IsPairs pairs_text text.now result }
{
    let pairs = read_list(alloc, text)?;
    if pairs.is_empty() {
        return Err(Unread::Syntax);
    }
    Ok(pairs)
}

impl Field for Cause {
    ghost IsValue = { IsCause };

    ghost spelling = { cause_text };

    fn read(alloc: Global, text: &[u8]) -> Result<Cause, Unread> {
        if let Some(rest) = behind(b"unavailable stripe ", text) {
            let (stripe, missing) = read_lost(alloc, rest)?;
            return Ok(Cause::Unavailable { stripe, missing });
        }
        if let Some(rest) = behind(b"contended", text) {
            let pairs = read_pairs(alloc, rest)?;
            return Ok(Cause::Contended { pairs });
        }
        if let Some(point) = behind(b"reaped ", text) {
            let at = u64::read(alloc, point)?;
            return Ok(Cause::Reaped { at });
        }
        if is_text(text, b"nomem") {
            return Ok(Cause::NoMemory);
        }
        Err(Unread::Syntax)
    }
}

// The result that is spelled by one word.
fn result_named(word: &[u8]) -> Option<RepairResult>
    ensures some { IfSome result (λ outcome. IsResult outcome × (word.now ≡ result_text outcome)) }
    ensures none { IfNone result ((word.now ≢ codes "rebuilt") × (word.now ≢ codes "here")
        × (word.now ≢ codes "nosuch") × (word.now ≢ codes "nomem")) }
{
    if is_text(word, b"rebuilt") {
        return Some(RepairResult::Rebuilt);
    }
    if is_text(word, b"here") {
        return Some(RepairResult::Here);
    }
    if is_text(word, b"nosuch") {
        return Some(RepairResult::NoSuch);
    }
    if is_text(word, b"nomem") {
        return Some(RepairResult::NoMemory);
    }
    None
}

impl Field for RepairResult {
    ghost IsValue = { IsResult };

    ghost spelling = { result_text };

    fn read(alloc: Global, text: &[u8]) -> Result<RepairResult, Unread> {
        if let Some(rest) = behind(b"unavailable stripe ", text) {
            let (stripe, missing) = read_lost(alloc, rest)?;
            return Ok(RepairResult::Unavailable { stripe, missing });
        }
        if let Some(point) = behind(b"superseded ", text) {
            let newer = u64::read(alloc, point)?;
            return Ok(RepairResult::Superseded { newer });
        }
        if let Some(point) = behind(b"reaped ", text) {
            let at = u64::read(alloc, point)?;
            return Ok(RepairResult::Reaped { at });
        }
        if let Some(count) = behind(b"away ", text) {
            let downs = u64::read(alloc, count)?;
            return Ok(RepairResult::Away { downs });
        }
        match result_named(text) {
            Some(outcome) => Ok(outcome),
            None => Err(Unread::Syntax),
        }
    }
}
