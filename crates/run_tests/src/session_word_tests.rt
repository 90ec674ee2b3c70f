//! Words of sessions, and words that are no session's.
use crate::session_runs::{NOTHING, run_with};
use clay_par::ParCoder;
use frame_session::SessionStatus;
use std::test::Fail;
use std::thread::Threads;
use text_tables::counting::Counting;
use text_tables::fault_tables::{failed, rows_of};

// How a session of these words ends whose input is a byte that is no frame, and which writes nothing.
fn ends_as<R: Threads + Sync + AllocGlobal>(
    rt: &R,
    words: &[u8],
    status: SessionStatus,
) -> Result<(), Fail> {
    let ran = run_with(rt, words, b"\0", NOTHING, &Counting::new(ParCoder))?;
    if ran.status == status && ran.written.is_empty() {
        return Ok(());
    }
    Err(failed(words))
}

// Each of some words, parted by `;`, ends so; there are so many.
fn all_end_as<R: Threads + Sync + AllocGlobal>(
    rt: &R,
    rows: usize,
    table: &[u8],
    status: SessionStatus,
) -> Result<(), Fail> {
    for words in &rows_of(rt.alloc(), table, b';', rows)? {
        ends_as(rt, words, status)?;
    }
    Ok(())
}

const REFUSED: &[u8] = b"\
2 2 1;2 2 1 64 64;2 2 1 0;2 2 1 1048577;1 2 1 64;2 1 1 64;2 9 1 64;2 2 0 64;2 2 01 64;2 2 1 +64;2 2 1 x;2 2 1 4294967297";

const TAKEN: &[u8] = b"2 2 1 64;2 2 1 1;7 2 1 1048576";

#[test]
fn words_are_refused_and_taken(rt: HostRuntime) -> Result<(), Fail> {
    all_end_as(&rt, 12, REFUSED, SessionStatus::Usage)?;
    all_end_as(&rt, 3, TAKEN, SessionStatus::TornFrame)
}
