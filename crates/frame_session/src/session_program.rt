//! The program over its words, a source and a sink.
ghost use Rattle.std.specs.Prelude.{◌≡◌, map, string_bytes};
ghost use Rattle.std.specs.Process.{exit_status};
ghost use Rattle.frame_session.specs.Serves.{Serves};
ghost use Rattle.frame_session.specs.Status.{status_number};

use crate::SessionStatus;
use crate::session_top::frame_main;
use clay_bytes::{Sink, Source, StdSink, StdSource};
use clay_lanes::LaneCoder;
use std::alloc::Global;
use std::env::{self, Env};
use std::io::{self, ErrorKind, Input, Print};
use std::process::ExitCode;
use std::thread::Threads;

// The words after the program's name. Where one of them isn't UTF-8 there are none, which are no session's.
fn words_of<R: Env + AllocGlobal>(rt: &R) -> io::Result<Vec<String>> {
    let mut words = Vec::new(rt.alloc());
    match env::args(rt) {
        Ok(args) => {
            for word in args.skip(1) {
                words.push(word)?;
            }
        }
        Err(error) if error.kind() == ErrorKind::InvalidData => {}
        Err(error) => return Err(error),
    }
    Ok(words)
}

/// Serves the session of these words from a source to a sink, and ends with the number of its status. What the source handed out and what
/// the sink took is known of each of them.
pub fn serve<R: Threads + Sync, S: Source, K: Sink>(
    rt: &R,
    alloc: Global,
    words: &[String],
    source: &mut S,
    sink: &mut K,
) -> ExitCode
    ensures exit { (status : SessionStatus) × (exit_status result ≡ status_number status)
        × Serves (map string_bytes words.now) status (S.given source.old) (S.given source.new) (S.ended source.new) (K.accepted sink.old) (K.accepted sink.new) }
{
    let status = frame_main(rt, alloc, words, source, sink, &LaneCoder);
    ExitCode::from(status.number())
}

/// Serves the session that the process's words ask for, over its standard input and output. No clause speaks of the process's own words.
pub fn run<R: Env + AllocGlobal + Input + Print + Threads + Sync>(rt: &R) -> ExitCode {
    let Ok(words) = words_of(rt) else {
        return ExitCode::from(SessionStatus::OutOfMemory.number());
    };
    let mut source = StdSource::new(rt.reader());
    let mut sink = StdSink::new(io::writer(rt));
    serve(rt, rt.alloc(), &words, &mut source, &mut sink)
}
