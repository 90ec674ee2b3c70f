//! Scripts past a limit, and scripts that miss their end.
use line_grammar::FaultKind::MissingEnd;
use script_text::{ScriptFault, read_front, read_script};
use std::alloc::Global;
use std::test::Fail;
use text_tables::table_scripts::{HEAD, has_faults, repeated};

const CLIENT: &[u8] = b"clay 1\ncode 2 2 1\nclient\n";

const REPAIRER: &[u8] = b"clay 1\ncode 2 2 1\nrepairer\n";

// Holds a text with this line so many times, and each end of a table behind it, against the fault of that row.
fn has_faults_past(
    alloc: Global,
    head: &[u8],
    line: &[u8],
    times: usize,
    rows: usize,
    table: &[u8],
) -> Result<(), Fail> {
    let text = repeated(alloc, head, line, times)?;
    has_faults(alloc, &text, rows, table)
}

const CLIENTS: &[u8] = b"\
    line 67: missing end>|\
    line 67: limit>client\n|\
    line 67: syntax>client 0\n|\
    line 69: no such actor>schedule\nc 63\nc 64\n";

const REPAIRERS: &[u8] = b"\
    line 19: missing end>|\
    line 19: limit>repairer\n|\
    line 19: syntax>client\n|\
    line 21: no such actor>schedule\nr 15\nreap r 16\n";

const CALLS: &[u8] = b"\
    line 4100: missing end>|\
    line 4100: limit>stat a\n|\
    line 4100: syntax>stat a \n|\
    line 4101: limit>leave 1\nstat a\n|\
    line 4102: syntax>client\nstat a\nstat a b\n|\
    line 4102: no such actor>schedule\nc 0\nc 1\n";

const LAST_CALL: &[u8] = b"\
    line 4101: missing end>leave 1\nstat a\n|\
    line 4101: syntax>leave 1\nstat a\nstat a\n";

const REBUILDS: &[u8] = b"\
    line 4100: missing end>|\
    line 4100: limit>rebuild a 0 3\n|\
    line 4100: limit>rebuild a 0 4\n|\
    line 4100: syntax>rebuild a 0\n|\
    line 4101: no such server>repairer\nrebuild a 0 4\n";

const STEPS: &[u8] = b"\
    line 1000004: limit>c 0\n|\
    line 1000005: syntax>end\n\n";

#[test]
fn too_many_lines(rt: HostRuntime) -> Result<(), Fail> {
    let alloc = rt.alloc();
    let steps: &[u8] = b"clay 1\ncode 2 2 1\nschedule\n";
    has_faults_past(alloc, HEAD, b"client\n", 64, 4, CLIENTS)?;
    has_faults_past(alloc, HEAD, b"repairer\n", 16, 4, REPAIRERS)?;
    has_faults_past(alloc, CLIENT, b"stat a\n", 4096, 6, CALLS)?;
    has_faults_past(alloc, CLIENT, b"stat a\n", 4095, 2, LAST_CALL)?;
    has_faults_past(alloc, REPAIRER, b"rebuild a 0 3\n", 4096, 5, REBUILDS)?;
    has_faults_past(alloc, steps, b"s\n", 1_000_000, 2, STEPS)
}

// A get asks for 65,536 bytes, and for as many as `size` says.
const GETS: &[u8] = b"\
    line 1028: missing end>|\
    line 1028: limit>get a\n|\
    line 1028: syntax>get A\n|\
    line 1029: limit>read a 0 0\nread a 0 1\n|\
    line 1030: limit>stat a\nclient\nget a\n";

const LARGE_GETS: &[u8] = b"\
    line 69: missing end>|\
    line 69: limit>get a\n";

// 128 stripes of 524,288 bytes are 67,108,864.
const PUTS: &[u8] = b"\
    line 133: limit>put a fill:00:524288\nput a hex:\nput a hex:00\n|\
    line 131: limit>put a fill:00:524289\n|\
    line 132: limit>write a 524288 hex:0000\nwrite a 0 hex:00\n|\
    line 131: limit>write a 524287 hex:0000\n";

// 2,097,152 bytes of data.
const DATA: &[u8] = b"\
    line 4: missing end>|\
    line 5: missing end>\n|\
    line 4: limit>00\n|\
    line 4: syntax>0\n|\
    line 4: syntax>0F\n";

#[test]
fn too_many_bytes(rt: HostRuntime) -> Result<(), Fail> {
    let alloc = rt.alloc();
    let large: &[u8] = b"clay 1\ncode 2 2 1\nsize 1048576\nclient\n";
    let wide: &[u8] = b"clay 1\ncode 2 2 65536\nclient\n";
    let put: &[u8] = b"clay 1\ncode 2 2 1\nclient\nput a hex:";
    has_faults_past(alloc, CLIENT, b"get a\n", 1024, 5, GETS)?;
    has_faults_past(alloc, large, b"get a\n", 64, 2, LARGE_GETS)?;
    has_faults_past(alloc, wide, b"put a hex:00\n", 127, 4, PUTS)?;
    has_faults_past(alloc, put, b"0f", 2_097_152, 5, DATA)
}

// Holds the text, which misses its end, against that fault in its last line.
fn misses_its_end(alloc: Global, text: &[u8], line: u32) -> Result<(), Fail> {
    let wanted = Some(ScriptFault {
        line,
        kind: MissingEnd,
    });
    let whole = read_script(alloc, text).err();
    let front = read_front(alloc, text).err();
    if whole == wanted && front == wanted {
        return Ok(());
    }
    Err(Fail::new(format_args!("line {line}: found {whole:?} and {front:?}")))
}

#[test]
fn misses_the_end_of_each_piece(rt: HostRuntime) -> Result<(), Fail> {
    let text: &[u8] =
        b"clay 1\ncode 2 2 1\nclient\nput a hex:0100000000000000\nget a\nschedule\ndrain\nend\n";
    let mut line: u32 = 1;
    for length in 0..text.len() {
        misses_its_end(rt.alloc(), &text[..length], line)?;
        if text[length] == b'\n' {
            line = line.saturating_add(1);
        }
    }
    Ok(())
}
