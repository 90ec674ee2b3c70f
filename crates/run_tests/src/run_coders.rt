//! What a run asks of its coder, and what it shows where only one history is possible.
use crate::gates::TestGate;
use crate::runs::{WORKERS, transcript_by};
use clay_par::ParCoder;
use std::alloc::Global;
use std::sync::Wait;
use std::test::Fail;
use std::thread::Threads;
use store_map::Transcript;
use text_tables::counting::Counting;
use text_tables::fault_tables::same;
use transcript_text::write_transcript;

const PUT_THEN_GET: &[u8] = b"\
clay 1
code 2 2 1
client
put a hex:0100000000000000
get a
schedule
drain
end
";

// A client that is alone leaves no choice: what `play` shows of the script.
const TRANSCRIPT: &[u8] = b"\
H 0 c0.0 ok
H 1 c0.1 bytes hex:0100000000000000
L a 8
G c0.1 4 4 0 0
T 0 4 1 0
T 1 4 1 0
T 2 0 1 0
T 3 0 1 0
end
";

fn has_text(alloc: Global, transcript: &Transcript) -> Result<(), Fail> {
    same(&write_transcript(alloc, transcript)?, TRANSCRIPT)
}

// Fails where the script's transcript by so many threads is another.
fn shows_it<R: Threads + Wait + Sync + AllocGlobal>(
    rt: &R,
    workers: usize,
    coder: &Counting<ParCoder>,
) -> Result<(), Fail> {
    let transcript = transcript_by(rt, PUT_THEN_GET, workers, coder, &TestGate::Nobody)?;
    has_text(rt.alloc(), &transcript)
}

// Runs the script in so many threads, and fails where its coder wasn't asked.
fn run_alone<R: Threads + Wait + Sync + AllocGlobal>(rt: &R, workers: usize) -> Result<(), Fail> {
    let coder = Counting::new(ParCoder);
    shows_it(rt, workers, &coder)?;
    if coder.encodes() == 0 {
        return Err(Fail::from("no stripe was encoded"));
    }
    Ok(())
}

#[test]
fn a_client_alone_has_one_history(rt: HostRuntime) -> Result<(), Fail> {
    for workers in WORKERS {
        run_alone(&rt, workers)?;
    }
    Ok(())
}
