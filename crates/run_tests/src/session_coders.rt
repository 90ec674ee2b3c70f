//! What a session asks of its coder.
use crate::session_runs::{NOTHING, WORDS, run_with};
use clay_par::ParCoder;
use frame_session::SessionStatus;
use std::test::Fail;
use std::thread::Threads;
use text_tables::counting::Counting;

// A put of eight bytes under the name a.
const PUT: &[u8] = b"\0\0\0\x0b\x01\x01a\x01\0\0\0\0\0\0\0";

// The same; then servers 0 and 1 are emptied, and both chunks are healed: the first from whole chunks, the
// second, which alone is lost by then, from subchunks.
const HEAL: &[u8] = b"\
\0\0\0\x0b\x01\x01a\x01\0\0\0\0\0\0\0\
\0\0\0\x05\x07\0\0\0\0\
\0\0\0\x05\x07\0\0\0\x01\
\0\0\0\x01\x0d";

// What the session of an input asks of its coder.
fn asked_by<R: Threads + Sync + AllocGlobal>(
    rt: &R,
    input: &[u8],
) -> Result<Counting<ParCoder>, Fail> {
    let coder = Counting::new(ParCoder);
    let ran = run_with(rt, WORDS, input, NOTHING, &coder)?;
    if ran.status != SessionStatus::Done {
        return Err(Fail::from("not done"));
    }
    Ok(coder)
}

#[test]
fn a_put_and_a_heal_ask_the_coder(rt: HostRuntime) -> Result<(), Fail> {
    let of_a_put = asked_by(&rt, PUT)?;
    assert!(rt; of_a_put.encodes() >= 1);
    let of_a_heal = asked_by(&rt, HEAL)?;
    assert!(rt; of_a_heal.recovers() >= 1);
    assert!(rt; of_a_heal.rebuilds() >= 1);
    Ok(())
}
