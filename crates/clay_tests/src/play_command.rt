//! The command `play`, and words that are no command.
use crate::command_runs::answers;
use crate::command_scripts::{PUT_THEN_GET, TRANSCRIPT};
use crate::tables::{ALONE, all_answer};
use clay_cli::Status;
use std::alloc::Global;
use std::sync::Wait;
use std::test::Fail;
use std::thread::Threads;
use text_tables::table_lines::unfolded;
use text_tables::table_scripts::repeated;

const USAGE: &[u8] = b"\
usage: clay play | run WORKERS | verify | chunks K M W | recover K M W | gen START SIZE | trial START SIZE WORKERS \
| chunksd K M D W | repaird K M D W LOST\n";

/// Words of no command, parted by spaces.
const NO_COMMANDS: &str = "\
playy|play play|Play||\
chunks|chunks 2 2|chunks 2 2 01|chunks 1 2 1|chunks 20 4 1|\
recover 2 9 1|recover 2 2 1 1|\
chunksd 2 3 1|chunksd 2 3 2 1|repaird 2 3 5 1 0|repaird 2 3 3 1 5|\
gen 0|gen 0 1 1|run|run 0|run 17|verify verify|trial 0 1|trial 0 1 17";

// Of the command `gen`, whose numbers are past their ends.
const NO_NUMBERS: &str = "\
gen 18446744073709551616 1|gen 99999999999999999999999 1|gen 0 0|gen 0 4097|gen 0 4294967297|\
gen 01 1|gen 0 01|gen -1 1|gen +1 1|generate 0 1";

fn is_no_command<R: Threads + Wait + Sync + AllocGlobal>(
    rt: &R,
    words: &str,
    input: &[u8],
) -> Result<(), Fail> {
    let words: Vec<&str> = words.split(' ').collect(rt.alloc())?;
    answers(rt, &words, input, Status::Usage, USAGE)
}

#[test]
fn words_of_no_command(rt: HostRuntime) -> Result<(), Fail> {
    for words in NO_COMMANDS.split('|') {
        is_no_command(&rt, words, PUT_THEN_GET)?;
    }
    for words in NO_NUMBERS.split('|') {
        is_no_command(&rt, words, b"")?;
    }
    Ok(())
}

/// Scripts with a fault, with what is said of them.
const REFUSED: &[u8] = b"\
play>2>28>\
>refused line 1 missing end\n\
|clay 1>refused line 1 missing end\n\
|\n>refused line 1 syntax\n\
|clay 2\n>refused line 2 missing end\n\
|clay 3\n>refused line 1 syntax\n\
|clay 01\n>refused line 1 syntax\n\
|clay 1\ncode 2 2 1\nschedule\ndown 0\nend\n>refused line 4 syntax\n\
|clay 2\ncode 2 2 1\nschedule\nup 4\nend\n>refused line 4 no such server\n\
|clay 1\r\n>refused line 1 syntax\n\
|clay 1\ncode 20 4 1\n>refused line 2 geometry\n\
|clay 1\ncode 4294967295 2 1\n>refused line 2 geometry\n\
|clay 1\ncode 4294967296 2 1\n>refused line 2 limit\n\
|clay 1\ncode 02 2 1\n>refused line 2 syntax\n\
|clay 1\ncode 2 2 1\nsize 0\n>refused line 3 limit\n\
|clay 1\ncode 2 2 1\ntries 9\n>refused line 3 limit\n\
|clay 1\ncode 2 2 1\nclient\nput A hex:\n>refused line 4 syntax\n\
|clay 1\ncode 2 2 1\nclient\nput a hex:0A\n>refused line 4 syntax\n\
|clay 1\ncode 2 2 1\nclient\nput a hex:010\n>refused line 4 syntax\n\
|clay 1\ncode 2 2 1\nclient\nput  a hex:01\n>refused line 4 syntax\n\
|clay 1\ncode 2 2 1\nclient\nput a fill:00:2097153\n>refused line 4 limit\n\
|clay 1\ncode 2 2 1\nclient\nleave 1\nget a\nget a\n>refused line 6 syntax\n\
|clay 1\ncode 2 2 1\nrepairer\nrebuild a 0 4\n>refused line 4 no such server\n\
|clay 1\ncode 2 2 1\nrepairer\nclient\n>refused line 4 syntax\n\
|clay 1\ncode 2 2 1\nclient\nschedule\nc 1\n>refused line 5 no such actor\n\
|clay 1\ncode 2 2 1\nschedule\nwipe 4\n>refused line 4 no such server\n\
|clay 1\ncode 2 2 1\nschedule\nend\nx>refused line 5 syntax\n\
|clay 1\ncode 2 2 1\nschedule\nend\nend\n>refused line 5 syntax\n\
|clay 1\ncode 2 2 1\nschedule\nend>refused line 4 missing end\n";

// A script that is cut off is refused at this line, the one that isn't whole.
fn is_cut_at<R: Threads + Wait + Sync + AllocGlobal>(
    rt: &R,
    cut: &[u8],
    line: u32,
) -> Result<(), Fail> {
    let named = format!(in rt.alloc(); "refused line {line} missing end\n")?;
    answers(rt, &["play"], cut, Status::ScriptRefused, named.as_bytes())
}

#[test]
fn every_cut_of_a_script(rt: HostRuntime) -> Result<(), Fail> {
    let mut line: u32 = 1;
    for length in 0..PUT_THEN_GET.len() {
        is_cut_at(&rt, &PUT_THEN_GET[..length], line)?;
        if PUT_THEN_GET[length] == b'\n' {
            line = line.saturating_add(1);
        }
    }
    Ok(())
}

const LONGEST: &[u8] = b"\
H 0 c0.0 ok\nL a 65536\nT 0 0 512 0\nT 1 0 512 0\nT 2 0 512 0\nT 3 0 512 0\nend\n";

const LONGER: &[u8] = b"\
H 0 c0.0 toolarge\nT 0 0 0 0\nT 1 0 0 0\nT 2 0 0 0\nT 3 0 0 0\nend\n";

// Of a script whose only call puts so many bytes.
fn put_answers<R: Threads + Wait + Sync + AllocGlobal>(
    rt: &R,
    length: usize,
    transcript: &[u8],
) -> Result<(), Fail> {
    let head = b"clay 1\ncode 2 2 16\nclient\nput a hex:";
    let mut script = repeated(rt.alloc(), head, b"5a", length)?;
    script.extend_from_slice(b"\nschedule\ndrain\nend\n")?;
    answers(rt, &[], &script, Status::Done, transcript)
}

// Three clients and two repairers over two objects of several stripes. Two servers are emptied once the
// puts are done.
const LARGE: &[u8] = b"\
clay 1
code 8 4 64
size 200000
client
put log ramp:00:100000
write log 100000 fill:aa:3000
stat log
client
put img fill:07:100000
read img 98304 1696
client
read log 8192 4096
read log 99998 4
repairer
rebuild log 0 2
rebuild log 0 9
repairer
rebuild img 3 2
schedule
c 0*99
c 1*99
wipe 2
wipe 9
drain
end
";

const EVERY_BYTE: &[u8] = b"\
000102030405060708090a0b0c0d0e0f101112131415161718191a1b1c1d1e1f\
202122232425262728292a2b2c2d2e2f303132333435363738393a3b3c3d3e3f\
404142434445464748494a4b4c4d4e4f505152535455565758595a5b5c5d5e5f\
606162636465666768696a6b6c6d6e6f707172737475767778797a7b7c7d7e7f\
808182838485868788898a8b8c8d8e8f909192939495969798999a9b9c9d9e9f\
a0a1a2a3a4a5a6a7a8a9aaabacadaeafb0b1b2b3b4b5b6b7b8b9babbbcbdbebf\
c0c1c2c3c4c5c6c7c8c9cacbcccdcecfd0d1d2d3d4d5d6d7d8d9dadbdcdddedf\
e0e1e2e3e4e5e6e7e8e9eaebecedeeeff0f1f2f3f4f5f6f7f8f9fafbfcfdfeff";

// What stands behind the two long replies.
const BEHIND: &[u8] = b"
H 4 c0.1 ok
H 5 c2.1 bytes hex:9e9faaaa
H 6 c0.2 length 103000
R r0.0 rebuilt
R r0.1 rebuilt
R r1.0 rebuilt
L log 103000
L img 100000
G c0.1 27 0 0 0 0 0 0 0 0 0 0 0
G c1.1 27 0 0 0 0 0 0 0 0 0 0 0
G c2.0 64 64 0 64 64 64 64 64 64 0 0 0
G c2.1 1 0 0 0 0 0 0 0 0 0 0 0
G r0.0 64 64 0 64 64 64 64 64 64 0 0 0
G r0.1 16 16 16 16 16 16 16 16 16 0 16 16
G r1.0 64 64 0 64 64 64 64 64 64 0 0 0
T 0 263 8 0
T 1 208 8 0
T 2 16 3 1
T 3 208 8 0
T 4 208 8 0
T 5 208 8 0
T 6 208 8 0
T 7 208 8 0
T 8 208 8 0
T 9 0 2 1
T 10 16 8 0
T 11 16 8 0
end
";

fn transcript_of_large(alloc: Global) -> Result<Vec<u8>, Fail> {
    let first = b"H 0 c0.0 ok\nH 1 c1.0 ok\nH 2 c1.1 bytes hex:";
    let mut lines = repeated(alloc, first, b"07", 1696)?;
    lines.extend_from_slice(b"\nH 3 c2.0 bytes hex:")?;
    let mut transcript = repeated(alloc, &lines, EVERY_BYTE, 16)?;
    transcript.extend_from_slice(BEHIND)?;
    Ok(transcript)
}

#[test]
fn play_answers(rt: HostRuntime) -> Result<(), Fail> {
    let alloc = rt.alloc();
    answers(&rt, &[], PUT_THEN_GET, Status::Done, TRANSCRIPT)?;
    answers(&rt, &["play"], PUT_THEN_GET, Status::Done, TRANSCRIPT)?;
    all_answer(&rt, ALONE, 1, REFUSED)?;
    put_answers(&rt, 65536, LONGEST)?;
    put_answers(&rt, 65537, LONGER)?;
    let script = unfolded(alloc, LARGE)?;
    let transcript = transcript_of_large(alloc)?;
    answers(&rt, &[], &script, Status::Done, &transcript)
}
