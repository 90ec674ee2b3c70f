//! Reading a transcript that is a whole text, or what is left of one.
ghost use Rattle.std.specs.Prelude.{◌≡◌, ◌<◌, ◌^◌, length, IfOk, IfErr};
ghost use Rattle.script_text.specs.FirstFault.{OrMemory};
ghost use Rattle.transcript_text.specs.Text.{text_of};
ghost use Rattle.transcript_read.specs.WellFormed.{IsWellFormed};
ghost use Rattle.transcript_read.specs.Fault.{IsFault};

use crate::field::Unread;
use crate::rest::TextRest;
use crate::transcript_reader::Reader;
use line_grammar::{FaultKind, split_at_first};
use script_text::ScriptFault;
use std::alloc::Global;
use store_map::Transcript;

/// The transcript with lines of so many servers whose text the bytes are. Otherwise the fault is
/// the first faulty line's. It takes time and memory in proportion to the bytes.
pub fn read_transcript(alloc: Global, bytes: &[u8], servers: u32) -> Result<Transcript, ScriptFault>
    requires few { length bytes.now < 2 ^ 31 }
    ensures form { IfOk result (IsWellFormed servers) }
    ensures text { IfOk result (λ transcript. bytes.now ≡ text_of transcript) }
    ensures fault { IfErr result (OrMemory (IsFault servers bytes.now)) }
{
    match Vec::from_slice(alloc, bytes) {
        Ok(text) => take_transcript(alloc, TextRest::new(text), servers),
        Err(_) => Err(fault_at(0, FaultKind::OutOfMemory)),
    }
}

/// The same of what is left of a text, whose memory is given back while it is read.
pub fn take_transcript(
    alloc: Global,
    text: TextRest,
    servers: u32,
) -> Result<Transcript, ScriptFault>
    requires few { length text < 2 ^ 31 }
    ensures form { IfOk result (IsWellFormed servers) }
    ensures text { IfOk result (λ transcript. text ≡ text_of transcript) }
    ensures fault { IfErr result (OrMemory (IsFault servers text)) }
{
    let mut reader = Reader::new(alloc, servers);
    let mut lines = 0;
    let mut rest = text;
    while !reader.has_ended() {
        let Some((line, _)) = split_at_first(b'\n', rest.as_slice()) else {
            return Err(fault_at(lines + 1, FaultKind::MissingEnd));
        };
        match reader.take_line(alloc, line) {
            Ok(()) => {}
            Err(Unread::Syntax) => return Err(fault_at(lines + 1, FaultKind::Syntax)),
            Err(Unread::OutOfMemory) => return Err(fault_at(0, FaultKind::OutOfMemory)),
        }
        lines += 1;
        let length = line.len() + 1;
        rest.skip(length);
    }
    if rest.as_slice().is_empty() {
        Ok(reader.transcript)
    } else {
        Err(fault_at(lines + 1, FaultKind::Syntax))
    }
}

fn fault_at(line: u32, kind: FaultKind) -> ScriptFault
    ensures line { result.line ≡ line }
    ensures kind { result.kind ≡ kind }
{
    ScriptFault { line, kind }
}
