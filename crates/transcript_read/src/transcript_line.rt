//! A transcript's lines, read kind by kind.
ghost use Rattle.std.specs.Prelude.{◌≡◌, ◌≢◌, ◌++◌, ◌↔◌, ℕ, List, IsTrue, codes};
ghost use Rattle.std.specs.List.{list_any};
ghost use Rattle.transcript_read.specs.Reads.{Reads};
ghost use Rattle.transcript_read.specs.Bodies.{line_body, history_body, refused_body, repair_body, unanswered_body, object_body, takes_body, server_body};
ghost use Rattle.transcript_read.specs.Forms.{IsLine, IsHistoryLine, IsRefusedLine, IsRepairLine, IsUnansweredLine, IsObjectLine, IsTakesLine, IsServerLine, is_above_zero};

use crate::field::{Field, Unread, behind, first_field};
use crate::list::{cut_word, read_list};
use line_grammar::is_text;
use std::alloc::Global;
use store_map::{
    CallName, Cause, GLine, HLine, LLine, Name, OLine, RLine, RepairResult, Shown, TLine, XLine,
};

/// A line of a transcript.
#[derive(Drop)]
pub enum Line {
    History(HLine),
    Refused(XLine),
    Repair(RLine),
    Unanswered(OLine),
    Object(LLine),
    Takes(GLine),
    Server(TLine),
    End,
}

fn is_any_above_zero(takes: &[u64]) -> bool
    ensures { result ≡ list_any is_above_zero takes.now }
{
    takes.iter().any(|taken| *taken > 0)
}

// Each of the functions below reads a line of one kind, from the text behind its first word and
// the space after it.
fn read_history(alloc: Global, text: &[u8]) -> Result<HLine, Unread>
    ensures { Reads IsHistoryLine history_body text.now result }
{
    let (point, rest) = first_field(alloc, b' ', text)?;
    let (call, rest) = first_field(alloc, b' ', rest)?;
    let reply = Shown::read(alloc, rest)?;
    Ok(HLine { point, call, reply })
}

fn read_refused(alloc: Global, text: &[u8]) -> Result<XLine, Unread>
    ensures { Reads IsRefusedLine refused_body text.now result }
{
    let (call, rest) = first_field(alloc, b' ', text)?;
    let cause = Cause::read(alloc, rest)?;
    Ok(XLine { call, cause })
}

fn read_repair(alloc: Global, text: &[u8]) -> Result<RLine, Unread>
    ensures { Reads IsRepairLine repair_body text.now result }
{
    let (call, rest) = first_field(alloc, b' ', text)?;
    let result = RepairResult::read(alloc, rest)?;
    Ok(RLine { call, result })
}

fn read_unanswered(alloc: Global, text: &[u8]) -> Result<OLine, Unread>
    ensures { Reads IsUnansweredLine unanswered_body text.now result }
{
    let call = CallName::read(alloc, text)?;
    Ok(OLine { call })
}

fn read_object(alloc: Global, text: &[u8]) -> Result<LLine, Unread>
    ensures { Reads IsObjectLine object_body text.now result }
{
    let (name, rest) = first_field::<Name>(alloc, b' ', text)?;
    let length = u64::read(alloc, rest)?;
    Ok(LLine { name, length })
}

fn read_takes(alloc: Global, servers: u32, text: &[u8]) -> Result<GLine, Unread>
    ensures { Reads (IsTakesLine servers) takes_body text.now result }
{
    let (word, numbers) = cut_word(text);
    let call = CallName::read(alloc, word)?;
    let takes = read_list::<u64>(alloc, numbers)?;
    if takes.len() != servers as usize {
        return Err(Unread::Syntax);
    }
    if !is_any_above_zero(takes.as_slice()) {
        return Err(Unread::Syntax);
    }
    Ok(GLine { call, takes })
}

fn read_server(alloc: Global, text: &[u8]) -> Result<TLine, Unread>
    ensures { Reads IsServerLine server_body text.now result }
{
    let (server, rest) = first_field(alloc, b' ', text)?;
    let (taken, rest) = first_field(alloc, b' ', rest)?;
    let (held, rest) = first_field(alloc, b' ', rest)?;
    let epoch = u64::read(alloc, rest)?;
    Ok(TLine {
        server,
        taken,
        held,
        epoch,
    })
}

// Reads an object's, a server's or the last line, or what a call took of the servers, from the
// whole line. It is no line of another kind.
fn read_state(alloc: Global, servers: u32, text: &[u8]) -> Result<Line, Unread>
    requires history { (rest : List ℕ) → text.now ≢ codes "H " ++ rest }
    requires refused { (rest : List ℕ) → text.now ≢ codes "X " ++ rest }
    requires repair { (rest : List ℕ) → text.now ≢ codes "R " ++ rest }
    requires unanswered { (rest : List ℕ) → text.now ≢ codes "O " ++ rest }
    ensures { Reads (IsLine servers) line_body text.now result }
{
    if let Some(rest) = behind(b"L ", text) {
        return Ok(Line::Object(read_object(alloc, rest)?));
    }
    if let Some(rest) = behind(b"G ", text) {
        return Ok(Line::Takes(read_takes(alloc, servers, rest)?));
    }
    if let Some(rest) = behind(b"T ", text) {
        return Ok(Line::Server(read_server(alloc, rest)?));
    }
    if is_text(text, b"end") {
        Ok(Line::End)
    } else {
        Err(Unread::Syntax)
    }
}

impl Line {
    /// The line that a text spells, without its line feed, where there are so many servers.
    pub fn read(alloc: Global, servers: u32, text: &[u8]) -> Result<Line, Unread>
        ensures { Reads (IsLine servers) line_body text.now result }
    {
        if let Some(rest) = behind(b"H ", text) {
            return Ok(Line::History(read_history(alloc, rest)?));
        }
        if let Some(rest) = behind(b"X ", text) {
            return Ok(Line::Refused(read_refused(alloc, rest)?));
        }
        if let Some(rest) = behind(b"R ", text) {
            return Ok(Line::Repair(read_repair(alloc, rest)?));
        }
        if let Some(rest) = behind(b"O ", text) {
            return Ok(Line::Unanswered(read_unanswered(alloc, rest)?));
        }
        read_state(alloc, servers, text)
    }
}
