//! The commands `run` and `trial`. That transcripts of runs are legal is tested below the program
//! (`run_tests`).
use crate::command_runs::{answers, fails, run_by};
use crate::command_scripts::{PUT_THEN_GET, TRANSCRIPT};
use crate::meeting::MeetingGate;
use clay_cli::Status;
use std::test::Fail;

const REFUSAL: &[u8] = b"refused line 2 missing end\n";

const TRIAL: &[u8] = b"calls 256\nrebuilds 16\nlegal\n";

const LARGEST_TRIAL: &[u8] = b"calls 16384\nrebuilds 1024\nlegal\n";

// One stripe of 32,000 bytes, of which the last two are read.
const LONG_SUBCHUNKS: &[u8] = b"\
clay 1
code 4 2 1000
client
put a ramp:00:32000
read a 31998 2
schedule
drain
end
";

const ITS_TRANSCRIPT: &[u8] = b"\
H 0 c0.0 ok
H 1 c0.1 bytes hex:feff
L a 32000
G c0.1 0 0 0 1 0 0
T 0 0 1 0
T 1 0 1 0
T 2 0 1 0
T 3 1 1 0
T 4 0 1 0
T 5 0 1 0
end
";

// A client that is alone leaves no choice.
#[test]
fn run_answers(rt: HostRuntime) -> Result<(), Fail> {
    let words = ["run", "4"];
    answers(&rt, &["run", "1"], PUT_THEN_GET, Status::Done, TRANSCRIPT)?;
    answers(&rt, &words, PUT_THEN_GET, Status::Done, TRANSCRIPT)?;
    answers(&rt, &["run", "16"], PUT_THEN_GET, Status::Done, TRANSCRIPT)?;
    answers(&rt, &words, LONG_SUBCHUNKS, Status::Done, ITS_TRANSCRIPT)?;
    answers(&rt, &words, b"clay 1\n", Status::ScriptRefused, REFUSAL)?;
    fails(&rt, &words, PUT_THEN_GET, &[0], &[], Status::ReadFault)?;
    fails(&rt, &words, PUT_THEN_GET, &[], &[0], Status::WriteFault)
}

// The lines are the same for every run, so no clause says that there was one. A trial reads nothing.
#[test]
fn trial_makes_a_step_of_each_call(rt: HostRuntime) -> Result<(), Fail> {
    let gate = MeetingGate::counting();
    let trial = run_by(&rt, &["trial", "7", "64", "4"], b"", &[0], &[], &gate)?;
    trial.expect(Status::Done, TRIAL)?;
    assert!(rt; gate.passes() >= 272);
    Ok(())
}

#[test]
fn trials_answer(rt: HostRuntime) -> Result<(), Fail> {
    let largest = ["trial", "0", "4096", "4"];
    answers(&rt, &largest, b"", Status::Done, LARGEST_TRIAL)?;
    fails(
        &rt,
        &["trial", "0", "1", "2"],
        b"",
        &[],
        &[0],
        Status::WriteFault,
    )
}
