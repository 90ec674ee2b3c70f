//! What `play` and `run` print for the scripts of the examples, put behind its script, is legal to `verify`.
use crate::command_runs::{Ran, run};
use clay_cli::Status;
use std::sync::Wait;
use std::test::Fail;
use std::thread::Threads;
use text_tables::fault_tables::rows_of;
use text_tables::table_lines::unfolded;

// The scripts of the examples, parted by `|`.
const EXAMPLES: &[u8] = b"\
clay 1
code 4 2 1
client
put words hex:436c617920636f64657320726570616972207769746820666577206279746573
get words
read words 0 4
read words 8 6
schedule
c 0*15
wipe 1
drain
end
|clay 1
code 2 2 1
client
put note hex:7265642062616c6c
leave 6
put note hex:62696720626f6f6b
client
get note
schedule
c 0*17
c 1*4
reap c 0
drain
end
|clay 1
code 2 2 1
tries 1
client
put note hex:7265642062616c6c
write note 0 hex:626967
client
write note 4 hex:626f6f6b
get note
schedule
c 0*12
c 1
drain
end
|clay 1
code 2 2 1
client
put a hex:0100000000000000
get a
schedule
drain
end
|clay 1
code 2 2 1
tries 2
client
put note hex:7265642062616c6c
write note 0 hex:626967
client
write note 4 hex:626f6f6b
get note
schedule
c 0*12
c 1
drain
end
|clay 1
code 4 2 16
size 600
tries 2
client
put log ramp:00:200
write log 200 fill:aa:4
write log 700 hex:00
write log 100 ramp:00:501
read log 196 100
read log 205 1
stat log
delete log
get log
schedule
drain
end
|clay 1
code 8 4 1
client
put words ramp:00:512
repairer
rebuild words 0 5*2
rebuild words 0 11
schedule
c 0*27
wipe 5
r 0*27
wipe 5
wipe 11
drain
end
|clay 1
code 4 2 16
client
put b hex:ff
put a hex:00
get c
put b hex:0102
get b
schedule
drain
end
|clay 2
code 2 2 1
client
put note hex:7265642062616c6c
get note
put note hex:62696720626f6f6b
repairer
rebuild note 0 0*2
schedule
down 0
c 0*20
r 0*3
up 0
r 0*11
down 1
down 2
down 3
drain
end
|clay 1
code 2 2 1
client
put a ramp:00:8
put a fill:ff:12
client
get a
read a 2 4
schedule
drain
end
";

const LEGAL: &[u8] = b"legal\n";

// Whether the command of the words ends with Done on the script, and `verify` finds the script with what it printed legal.
fn is_found_legal<R: Threads + Wait + Sync + AllocGlobal>(
    rt: &R,
    words: &[&str],
    script: &[u8],
) -> Result<bool, Fail> {
    let mut piped = unfolded(rt.alloc(), script)?;
    let Ran { status, written } = run(rt, words, &piped)?;
    piped.extend_from_slice(&written)?;
    let verdict = run(rt, &["verify"], &piped)?;
    let is_legal = verdict.status == Status::Done && verdict.written.as_slice() == LEGAL;
    Ok(is_legal && status == Status::Done)
}

// Holds so of each of the examples' scripts.
fn all_are_found_legal<R: Threads + Wait + Sync + AllocGlobal>(
    rt: &R,
    words: &[&str],
) -> Result<(), Fail> {
    let scripts = rows_of(rt.alloc(), EXAMPLES, b'|', 10)?;
    for (at, script) in scripts.iter().enumerate() {
        if !is_found_legal(rt, words, script)? {
            return Err(Fail::new(format_args!("script {at} isn't found legal")));
        }
    }
    Ok(())
}

#[test]
fn what_play_prints_is_legal(rt: HostRuntime) -> Result<(), Fail> {
    all_are_found_legal(&rt, &["play"])
}

#[test]
fn what_run_prints_is_legal(rt: HostRuntime) -> Result<(), Fail> {
    all_are_found_legal(&rt, &["run", "3"])
}
