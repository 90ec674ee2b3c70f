//! Scripts that are read, and written again.
use line_grammar::read_number;
use script_text::{read_script, write_script};
use std::alloc::Global;
use std::test::Fail;
use store_map::{Script, Token};
use text_tables::fault_tables::{failed, parts, rows_of, same};
use text_tables::table_lines::unfolded;
use text_tables::table_scripts::{begins_with, script_of};

// A script of larger data, with 201 lines in its schedule.
const LARGE: &[u8] = b"\
clay 1
code 8 4 64
size 200000
client
put log ramp:00:100000
write log 100000 fill:aa:3000
stat log
client
put img fill:07:100000
read img 98304 1696
client
read log 8192 4096
read log 99998 4
repairer
rebuild log 0 2
rebuild log 0 9
repairer
rebuild img 3 2
schedule
c 0*99
c 1*99
wipe 2
wipe 9
drain
end
";

/// Scripts in the form in which they are written, parted by `|`.
const WRITTEN: &[u8] = b"\
    clay 1\ncode 2 2 1\nschedule\nend\n|\
    clay 1\ncode 2 2 1\nclient\nschedule\nend\n|\
    clay 1\ncode 16 4 1\nrepairer\nschedule\nend\n|\
    clay 1\ncode 2 2 1\ntries 1\nclient\nput a hex:0100000000000000\nget a\nschedule\ndrain\nend\n|\
    clay 1\ncode 3 2 4\nsize 1048576\ntries 8\nclient\nput a hex:00ff\nput b fill:a0:0\nput c ramp:ff:4294\nwrite a 7 hex:\nget a\nread a 0 9\nstat a\nleave 0\ndelete a\nclient\nclient\nleave 4294967295\nget 0.-_z\nrepairer\nrebuild a 0 4\nleave 3\nrebuild a 4294967295 0\nrepairer\nschedule\nc 2\nr 1\ns\nwipe 4\nreap c 0\nreap r 1\ndrain\nend\n|\
    clay 1\ncode 2 2 1\nclient\nget abcdefghijklmnopqrstuvwxyz0123456789._-abcdefghijklmnopqrstuvwxy\nschedule\nend\n|\
    clay 1\ncode 2 2 1\nclient\nwrite a 4294967295 fill:00:2097145\nread a 4294967295 67108864\nschedule\nend\n|\
    clay 2\ncode 2 2 1\nschedule\ndown 0\nup 3\nend\n";

fn is_written_as(alloc: Global, script: &Script, text: &[u8]) -> Result<(), Fail> {
    same(&write_script(alloc, script)?, text)
}

fn is_copied_as(alloc: Global, script: &Script, text: &[u8]) -> Result<(), Fail> {
    let copy = script.copy()?;
    is_written_as(alloc, &copy, text)
}

// A script is written as it was read, and so is its copy.
fn writes_back(alloc: Global, text: &[u8]) -> Result<(), Fail> {
    let script = script_of(read_script(alloc, text))?;
    is_written_as(alloc, &script, text)?;
    is_copied_as(alloc, &script, text)?;
    begins_with(alloc, text, b"H 0 c0.0 ok\nend\n")
}

#[test]
fn writes_what_it_reads(rt: HostRuntime) -> Result<(), Fail> {
    let large = unfolded(rt.alloc(), LARGE)?;
    assert!(rt; large.len() == 1084);
    writes_back(rt.alloc(), &large)?;
    for text in &rows_of(rt.alloc(), WRITTEN, b'|', 8)? {
        writes_back(rt.alloc(), text)?;
    }
    Ok(())
}

/// Forms that the script of larger data leaves out; what that one reads as is told by its run (`clay_tests`).
const LIMITED: &[u8] =
    b"clay 1\ncode 2 2 1\nclient\nput a hex:00fe\nleave 7\ndelete a\nrepairer\nleave 0\nrebuild a 4 1\nschedule\nr 0\ns\nreap c 0\nreap r 0\nend\n";

// The step limits of the first client and of the first repairer.
fn limits_of(script: &Script) -> Option<[Option<u32>; 2]> {
    let client = script.clients.as_slice().first()?;
    let repairer = script.repairers.as_slice().first()?;
    Some([client.leave, repairer.leave])
}

#[test]
fn reads_limits_and_steps(rt: HostRuntime) -> Result<(), Fail> {
    let script = script_of(read_script(rt.alloc(), LIMITED))?;
    let wanted = [
        Token::Repairer(0),
        Token::Sweep,
        Token::ReapClient(0),
        Token::ReapRepairer(0),
    ];
    assert!(rt; limits_of(&script) == Some([Some(7), Some(0)]));
    assert!(rt; script.schedule.as_slice() == wanted.as_slice());
    Ok(())
}

#[test]
fn reads_servers_away(rt: HostRuntime) -> Result<(), Fail> {
    let text = b"clay 2\ncode 2 2 1\nschedule\ndown 0\nup 3\nend\n";
    let script = script_of(read_script(rt.alloc(), text))?;
    assert!(rt; script.form == 2);
    assert!(rt; script.schedule.as_slice() == [Token::Down(0), Token::Up(3)].as_slice());
    Ok(())
}

/// Words with their numbers.
const NUMBERS: &[u8] = b"\
0>Some(0)|7>Some(7)|10>Some(10)|4294967295>Some(4294967295)|4294967296>None|999999999999999999999999999999>None|\
>None|00>None|+1>None|-1>None|1 >None";

fn is_number(alloc: Global, row: &[u8]) -> Result<(), Fail> {
    let (word, wanted) = parts(row)?;
    let found = format!(in alloc; "{:?}", read_number(word))?;
    if found.as_bytes() == wanted {
        return Ok(());
    }
    Err(failed(row))
}

#[test]
fn numbers(rt: HostRuntime) -> Result<(), Fail> {
    for row in &rows_of(rt.alloc(), NUMBERS, b'|', 11)? {
        is_number(rt.alloc(), row)?;
    }
    Ok(())
}
