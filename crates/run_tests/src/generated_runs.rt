//! Runs of scripts that are drawn from numbers.
use crate::gates::TestGate;
use crate::runs::expect_legal;
use clay_gen::generate;
use clay_par::ParCoder;
use std::sync::Wait;
use std::test::Fail;
use std::thread::Threads;
use store_run::run;
use text_tables::counting::Counting;

// As many scripts, and as many calls of each client.
const SCRIPTS: u64 = 64;

const CALLS: u32 = 64;

fn run_is_legal<R: Threads + Wait + Sync + AllocGlobal>(rt: &R, start: u64) -> Result<(), Fail> {
    let alloc = rt.alloc();
    let transcript = run(
        rt,
        alloc,
        generate(alloc, start, CALLS)?,
        4,
        &Counting::new(ParCoder),
        &TestGate::Nobody,
    )?;
    expect_legal(alloc, "drawn", &generate(alloc, start, CALLS)?, &transcript)
}

#[test]
fn drawn_scripts_run_legally(rt: HostRuntime) -> Result<(), Fail> {
    for start in 0..SCRIPTS {
        run_is_legal(&rt, start)?;
    }
    Ok(())
}
