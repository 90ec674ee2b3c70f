//! Reads and writes that fail, each in turn.
use crate::command_runs::fails;
use crate::command_scripts::{PUT_THEN_GET, TRANSCRIPT};
use crate::drips::{Failing, NONE, run_in_drips};
use clay_cli::Status;
use clay_par::ParCoder;
use std::sync::Wait;
use std::test::Fail;
use std::thread::Threads;
use text_tables::counting::Counting;

// Plays the script a byte a call, and holds how that ends and what is written against what is wanted.
fn play<R: Threads + Wait + Sync + AllocGlobal>(
    rt: &R,
    failing: Failing<'_>,
    status: Status,
    written: &[u8],
) -> Result<(), Fail> {
    let ran = run_in_drips(rt, &[], PUT_THEN_GET, failing, &Counting::new(ParCoder))?;
    ran.expect(status, written)
}

// The read of this number fails.
fn play_to_read<R: Threads + Wait + Sync + AllocGlobal>(
    rt: &R,
    call: u64,
    status: Status,
    written: &[u8],
) -> Result<(), Fail> {
    let failing = Failing {
        reads: &[call],
        writes: &[],
    };
    play(rt, failing, status, written)
}

// The write of this number fails.
fn play_to_write<R: Threads + Wait + Sync + AllocGlobal>(
    rt: &R,
    call: u64,
    status: Status,
    written: &[u8],
) -> Result<(), Fail> {
    let failing = Failing {
        reads: &[],
        writes: &[call],
    };
    play(rt, failing, status, written)
}

// The last read finds the end of the input.
#[test]
fn each_read_fails_in_turn(rt: HostRuntime) -> Result<(), Fail> {
    fails(&rt, &[], PUT_THEN_GET, &[0], &[], Status::ReadFault)?;
    play(&rt, NONE, Status::Done, TRANSCRIPT)?;
    for call in 0..78 {
        play_to_read(&rt, call, Status::ReadFault, b"")?;
    }
    play_to_read(&rt, 78, Status::Done, TRANSCRIPT)
}

#[test]
fn each_write_fails_in_turn(rt: HostRuntime) -> Result<(), Fail> {
    fails(&rt, &[], PUT_THEN_GET, &[], &[0], Status::WriteFault)?;
    fails(
        &rt,
        &["playy"],
        PUT_THEN_GET,
        &[0],
        &[0],
        Status::WriteFault,
    )?;
    for call in 0..TRANSCRIPT.len() {
        play_to_write(&rt, call as u64, Status::WriteFault, &TRANSCRIPT[..call])?;
    }
    play_to_write(&rt, 113, Status::Done, TRANSCRIPT)
}
