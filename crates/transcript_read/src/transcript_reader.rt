//! A transcript that is read line by line.
ghost use Rattle.std.specs.Prelude.{◌≡◌, ◌↔◌, IsTrue, OnOk};
ghost use Rattle.transcript_read.specs.Reader.{with_line, empty, TakesLine};

use crate::field::Unread;
use crate::transcript_line::Line;
use crate::transcript_place::{TranscriptPlace, place_behind};
use std::alloc::{AllocError, Global};
use store_map::{ListOf, Transcript};

/// The transcript of the lines read so far, and the place behind them.
#[derive(Drop)]
pub struct Reader {
    pub servers: u32,
    pub place: TranscriptPlace,
    pub transcript: Transcript,
}

// Adds a line to the others of its kind.
fn push_line(transcript: &mut Transcript, line: Line) -> Result<(), AllocError>
    ensures { OnOk result (transcript.new ≡ with_line transcript.old line) }
{
    match line {
        Line::History(line) => transcript.history.push(line),
        Line::Refused(line) => transcript.refused.push(line),
        Line::Repair(line) => transcript.repairs.push(line),
        Line::Unanswered(line) => transcript.unanswered.push(line),
        Line::Object(line) => transcript.objects.push(line),
        Line::Takes(line) => transcript.takes.push(line),
        Line::Server(line) => transcript.servers.push(line),
        Line::End => Ok(()),
    }
}

impl Reader {
    /// A reader before the first line, where there are so many servers.
    pub fn new(alloc: Global, servers: u32) -> Reader
        ensures servers { result.servers ≡ servers }
        ensures place { result.place ≡ TranscriptPlace.Start }
        ensures transcript { result.transcript ≡ empty }
    {
        Reader {
            servers,
            place: TranscriptPlace::Start,
            transcript: Transcript {
                history: ListOf::new(alloc),
                refused: ListOf::new(alloc),
                repairs: ListOf::new(alloc),
                unanswered: ListOf::new(alloc),
                objects: ListOf::new(alloc),
                takes: ListOf::new(alloc),
                servers: ListOf::new(alloc),
            },
        }
    }

    /// Whether the line `end` was read.
    pub fn has_ended(&self) -> bool
        ensures { IsTrue result ↔ (self.now.place ≡ TranscriptPlace.End) }
    {
        matches!(self.place, TranscriptPlace::End)
    }

    /// Goes on by a line, without its line feed. After an error the reader is of no use.
    pub fn take_line(&mut self, alloc: Global, text: &[u8]) -> Result<(), Unread>
        ensures { TakesLine self.old text.now result self.new }
    {
        let line = Line::read(alloc, self.servers, text)?;
        let Some(place) = place_behind(self.place, self.servers, &line) else {
            return Err(Unread::Syntax);
        };
        let Ok(()) = push_line(&mut self.transcript, line) else {
            return Err(Unread::OutOfMemory);
        };
        self.place = place;
        Ok(())
    }
}
