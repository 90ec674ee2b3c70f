//! The command `run` with its threads at two servers at once.
use crate::command_runs::run_by;
use crate::meeting::MeetingGate;
use clay_cli::Status;
use std::sync::Wait;
use std::test::Fail;
use std::thread::Threads;

const TWO_PUTS: &[u8] = b"\
clay 1
code 2 2 1
client
put a hex:0100000000000000
client
put b hex:0200000000000000
schedule
drain
end
";

// Fails where the two clients aren't inside two locks at once: so it is in one thread, whatever was asked for.
fn clients_meet<R: Threads + Wait + Sync + AllocGlobal>(rt: &R, workers: &str) -> Result<(), Fail> {
    let gate = MeetingGate::holding();
    let ran = run_by(rt, &["run", workers], TWO_PUTS, &[], &[], &gate)?;
    if ran.status != Status::Done || !gate.has_held_both() || gate.has_given_up() {
        return Err(Fail::new(format_args!("{workers} workers: none met")));
    }
    Ok(())
}

#[test]
fn two_clients_are_inside_two_locks_at_once(rt: HostRuntime) -> Result<(), Fail> {
    for workers in ["2", "3", "4", "16"] {
        clients_meet(&rt, workers)?;
    }
    Ok(())
}
