//! The program over its words, a source and a sink.
ghost use Rattle.std.specs.Prelude.{◌≡◌, map, string_bytes};
ghost use Rattle.std.specs.Process.{exit_status};
ghost use Rattle.clay_cli.specs.ExitStatus.{status_number};
ghost use Rattle.trace_run.specs.Serves.{Serves};

use crate::trace_top::trace_main;
use clay_bytes::{Sink, Source, StdSink, StdSource};
use clay_cli::{Status, write_out};
use clay_lanes::LaneCoder;
use std::alloc::Global;
use std::env::{self, Env};
use std::io::{self, ErrorKind, Input, Print};
use std::process::ExitCode;
use std::thread::Threads;

const USAGE_LINE: &[u8] = b"usage: clay_trace\n";

// The words after the program's name. Where one of them isn't UTF-8 they are an empty word.
fn words_of<R: Env + AllocGlobal>(rt: &R) -> io::Result<Vec<String>> {
    let mut words = Vec::new(rt.alloc());
    match env::args(rt) {
        Ok(args) => {
            for word in args.skip(1) {
                words.push(word)?;
            }
        }
        Err(error) if error.kind() == ErrorKind::InvalidData => {
            words.push(String::new(rt.alloc()))?;
        }
        Err(error) => return Err(error),
    }
    Ok(words)
}

// The trace where there are no words, else the usage line.
fn traced_or_usage<R: Threads + Sync, S: Source, K: Sink>(
    rt: &R,
    alloc: Global,
    words: &[String],
    source: &mut S,
    sink: &mut K,
) -> Status
    ensures { Serves (map string_bytes words.now) result (S.given source.old) (S.given source.new) (S.ended source.new) (K.accepted sink.old) (K.accepted sink.new) }
{
    if !words.is_empty() {
        return write_out(sink, USAGE_LINE, Status::Usage);
    }
    trace_main(rt, alloc, source, sink, &LaneCoder)
}

/// Writes the trace of a run of the script that the source hands out, and ends with the number of a status. A word gets the usage line.
/// What the source handed out and what the sink took is known of each of them.
pub fn serve<R: Threads + Sync, S: Source, K: Sink>(
    rt: &R,
    alloc: Global,
    words: &[String],
    source: &mut S,
    sink: &mut K,
) -> ExitCode
    ensures exit { (status : Status) × (exit_status result ≡ status_number status)
        × Serves (map string_bytes words.now) status (S.given source.old) (S.given source.new) (S.ended source.new) (K.accepted sink.old) (K.accepted sink.new) }
{
    let status = traced_or_usage(rt, alloc, words, source, sink);
    ExitCode::from(status.number())
}

/// Serves the process's words over its standard input and output. No clause speaks of the process's own words.
pub fn run<R: Env + AllocGlobal + Input + Print + Threads + Sync>(rt: &R) -> ExitCode {
    let Ok(words) = words_of(rt) else {
        return ExitCode::from(Status::OutOfMemory.number());
    };
    let mut source = StdSource::new(rt.reader());
    let mut sink = StdSink::new(io::writer(rt));
    serve(rt, rt.alloc(), &words, &mut source, &mut sink)
}
