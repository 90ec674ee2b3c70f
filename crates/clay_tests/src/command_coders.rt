//! What the program and a world ask of their coder.
use crate::command_scripts::PUT_THEN_GET;
use crate::drips::{NONE, run_in_drips};
use clay_cli::Status;
use clay_par::ParCoder;
use script_text::read_script;
use std::sync::Wait;
use std::test::Fail;
use std::thread::Threads;
use store_world::play;
use text_tables::counting::Counting;
use text_tables::table_lines::unfolded;

// Of a stripe whose chunk 0 is lost.
const ONE_LOSS: &[u8] = b"\
clay 1
code 2 2 1
client
put a hex:0100000000000000
get a
schedule
c 0*11
wipe 0
drain
end
";

// What the program asks of its coder.
fn asked_by_the_program<R: Threads + Wait + Sync + AllocGlobal>(
    rt: &R,
    words: &[&str],
    script: &[u8],
    coder: &Counting<ParCoder>,
) -> Result<(), Fail> {
    let script = unfolded(rt.alloc(), script)?;
    if run_in_drips(rt, words, &script, NONE, coder)?.status != Status::Done {
        return Err(Fail::from("not done"));
    }
    Ok(())
}

fn program_encodes<R: Threads + Wait + Sync + AllocGlobal>(
    rt: &R,
    words: &[&str],
) -> Result<(), Fail> {
    let coder = Counting::new(ParCoder);
    asked_by_the_program(rt, words, PUT_THEN_GET, &coder)?;
    if coder.encodes() == 0 {
        return Err(Fail::new(format_args!("{words:?}: no stripe was encoded")));
    }
    Ok(())
}

// Holds a coder of one loss against one rebuild and no decoding.
fn has_rebuilt(coder: &Counting<ParCoder>) -> Result<(), Fail> {
    let (rebuilds, recovers) = (coder.rebuilds(), coder.recovers());
    if rebuilds == 1 && recovers == 0 {
        return Ok(());
    }
    Err(Fail::new(format_args!("{rebuilds} rebuilds, {recovers} recovers")))
}

#[test]
fn the_program_asks_its_coder(rt: HostRuntime) -> Result<(), Fail> {
    program_encodes(&rt, &[])?;
    program_encodes(&rt, &["play"])?;
    program_encodes(&rt, &["run", "4"])?;
    let coder = Counting::new(ParCoder);
    asked_by_the_program(&rt, &[], ONE_LOSS, &coder)?;
    has_rebuilt(&coder)
}

// What a world asks of its coder.
fn asked_by_a_world<R: Threads + Sync + AllocGlobal>(
    rt: &R,
    text: &[u8],
    coder: &Counting<ParCoder>,
) -> Result<(), Fail> {
    let alloc = rt.alloc();
    let Ok(script) = read_script(alloc, &unfolded(alloc, text)?) else {
        return Err(Fail::from("refused"));
    };
    let _transcript = play(rt, alloc, coder, script)?;
    Ok(())
}

#[test]
fn a_world_asks_its_coder(rt: HostRuntime) -> Result<(), Fail> {
    let coder = Counting::new(ParCoder);
    asked_by_a_world(&rt, PUT_THEN_GET, &coder)?;
    assert!(rt; coder.encodes() >= 1);
    let coder = Counting::new(ParCoder);
    asked_by_a_world(&rt, ONE_LOSS, &coder)?;
    has_rebuilt(&coder)
}
