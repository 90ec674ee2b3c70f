//! The command `gen`.
use crate::command_runs::{Ran, fails, run, run_failing};
use clay_cli::Status;
use std::test::Fail;
use text_tables::fault_tables::same;

// One call of each client, from the number 10007, as another program drew them.
const ONE_CALL: &[u8] = b"\
clay 1
code 4 2 16
size 4096
client
write c 1061 ramp:ab:384
client
read d 2046 122
client
write e 1395 ramp:ca:152
client
write e 1100 ramp:62:263
repairer
schedule
c 3
r 0
s
c 0
s
c 0
c 0
c 0
drain
end
";

#[test]
fn gen_answers(rt: HostRuntime) -> Result<(), Fail> {
    let words = ["gen", "10007", "1"];
    run_failing(&rt, &words, b"x", &[0], &[])?.expect(Status::Done, ONE_CALL)?;
    fails(&rt, &words, b"", &[], &[0], Status::WriteFault)?;
    let last = run(&rt, &["gen", "18446744073709551615", "1"], b"")?;
    assert!(rt; last.status == Status::Done);
    Ok(())
}

#[test]
fn a_script_drawn_from_zero_begins_with_a_stat(rt: HostRuntime) -> Result<(), Fail> {
    let Ran { status, written } = run(&rt, &["gen", "0", "1"], b"")?;
    assert!(rt; status == Status::Done);
    for (at, line) in written.split(|byte| *byte == b'\n').enumerate() {
        if at == 4 {
            return same(line, b"stat b");
        }
    }
    Err(Fail::from("fewer than five lines"))
}
