//! Scripts with one damaged line.
use line_grammar::FaultKind::{
    Geometry, Limit, MissingEnd, NoSuchActor, NoSuchServer, OutOfMemory, Syntax,
};
use script_text::ScriptFault;
use std::alloc::{AllocError, Global};
use std::test::Fail;
use text_tables::fault_tables::{parts, same};
use text_tables::table_scripts::{HEAD, begins_with, has_faults};

// The second line's form goes before its geometry and before a limit, and a limit before the geometry.
const FIRST_TWO_LINES: &[u8] = b"\
    line 1: missing end>|\
    line 1: missing end>c|\
    line 1: missing end>clay 1|\
    line 1: missing end>clay 2|\
    line 2: missing end>clay 2\n|\
    line 1: syntax>clay 3\n|\
    line 1: syntax>clay\n|\
    line 1: syntax>clay  1\n|\
    line 1: syntax> clay 1\n|\
    line 1: syntax>clay 1 \n|\
    line 1: syntax>clay 1\r\n|\
    line 1: syntax>clay 01\n|\
    line 1: syntax>Clay 1\n|\
    line 1: syntax>clay 4294967296\n|\
    line 1: syntax>\n|\
    line 1: syntax>\nclay 1\n|\
    line 1: syntax>code 2 2 1\n|\
    line 1: syntax>\xffclay 1\n|\
    line 2: missing end>clay 1\n|\
    line 2: missing end>clay 1\ncode 2 2 1|\
    line 2: missing end>clay 1\ncode 1 2 1|\
    line 2: syntax>clay 1\n\n|\
    line 2: syntax>clay 1\nclay 1\n|\
    line 2: syntax>clay 1\nsize 8\n|\
    line 2: syntax>clay 1\ncode\n|\
    line 2: syntax>clay 1\ncode 2 2\n|\
    line 2: syntax>clay 1\ncode 2 2 1 1\n|\
    line 2: syntax>clay 1\ncode 02 2 1\n|\
    line 2: syntax>clay 1\ncode 2  2 1\n|\
    line 2: syntax>clay 1\ncode -2 2 1\n|\
    line 2: syntax>clay 1\ncode 1 2 1 \n|\
    line 2: syntax>clay 1\ncode 1 2 00\n|\
    line 2: syntax>clay 1\ncode 4294967296 2 x\n|\
    line 2: geometry>clay 1\ncode 0 0 0\n|\
    line 2: geometry>clay 1\ncode 1 2 1\n|\
    line 2: geometry>clay 1\ncode 2 1 1\n|\
    line 2: geometry>clay 1\ncode 2 9 1\n|\
    line 2: geometry>clay 1\ncode 2 2 0\n|\
    line 2: geometry>clay 1\ncode 2 2 65537\n|\
    line 2: geometry>clay 1\ncode 20 4 1\n|\
    line 2: geometry>clay 1\ncode 16 4 65536\n|\
    line 2: geometry>clay 1\ncode 4294967295 2 1\n|\
    line 2: geometry>clay 1\ncode 2 2 4294967295\n|\
    line 2: limit>clay 1\ncode 4294967296 2 1\n|\
    line 2: limit>clay 1\ncode 4294967296 1 0\n|\
    line 2: limit>clay 1\ncode 1 4294967296 1\n|\
    line 2: limit>clay 1\ncode 1 2 999999999999999999999999999999\n";

// The form goes before the server, and before the actor.
const LINES_WITHOUT_A_FORM: &[u8] = b"\
    line 3: syntax>clay 1\n|\
    line 3: syntax>code 2 2 1\n|\
    line 3: syntax>\n|\
    line 3: syntax>get a\n|\
    line 3: syntax>rebuild a 0 4\n|\
    line 3: syntax>c 0\n|\
    line 3: syntax>wipe 4\n|\
    line 3: syntax>end\n|\
    line 3: syntax>leave 4294967296\n|\
    line 3: syntax>Size 8\n|\
    line 3: syntax>size\n|\
    line 3: syntax>size 8 \n|\
    line 3: syntax>size 08\n|\
    line 3: syntax>size 00\n|\
    line 3: syntax>size -1\n|\
    line 3: syntax>size +1\n|\
    line 3: syntax>size 000000000000000000000000000000\n|\
    line 4: syntax>size 8\nsize 0\n|\
    line 4: syntax>tries 1\nsize 8\n|\
    line 4: syntax>tries 1\ntries 9\n|\
    line 4: syntax>client\ntries 1\n|\
    line 3: syntax>client 0\n|\
    line 3: syntax> client\n|\
    line 3: syntax>client\t\n|\
    line 4: syntax>client\nget\n|\
    line 4: syntax>client\nget \n|\
    line 4: syntax>client\nget A\n|\
    line 4: syntax>client\nget a/b\n|\
    line 4: syntax>client\nget a b\n|\
    line 4: syntax>client\nget  a\n|\
    line 4: syntax>client\nget \xc3\xa9\n|\
    line 4: syntax>client\nget abcdefghijklmnopqrstuvwxyz0123456789._-abcdefghijklmnopqrstuvwxyz\n|\
    line 4: syntax>client\nput a\n|\
    line 4: syntax>client\nput a hex\n|\
    line 4: syntax>client\nput a hex:0\n|\
    line 4: syntax>client\nput a hex:0A\n|\
    line 4: syntax>client\nput a hex:0g\n|\
    line 4: syntax>client\nput a hex:00 \n|\
    line 4: syntax>client\nput a HEX:00\n|\
    line 4: syntax>client\nput a fill:0:1\n|\
    line 4: syntax>client\nput a fill:000:1\n|\
    line 4: syntax>client\nput a fill:A0:1\n|\
    line 4: syntax>client\nput a fill:00:01\n|\
    line 4: syntax>client\nput a fill:00:\n|\
    line 4: syntax>client\nput a fill:00\n|\
    line 4: syntax>client\nput a fill:00:1:1\n|\
    line 4: syntax>client\nput a ramp:00:-1\n|\
    line 4: syntax>client\nput a ramp:0g:4294967296\n|\
    line 4: syntax>client\nput a rampp:00:1\n|\
    line 4: syntax>client\nput A fill:00:2097153\n|\
    line 4: syntax>client\nwrite a hex:00\n|\
    line 4: syntax>client\nwrite a 0\n|\
    line 4: syntax>client\nwrite a 01 hex:00\n|\
    line 4: syntax>client\nwrite a 4294967296 hex:0\n|\
    line 4: syntax>client\nread a 0\n|\
    line 4: syntax>client\nread a 0 1 2\n|\
    line 4: syntax>client\nread a 4294967296 00\n|\
    line 4: syntax>client\nstat\n|\
    line 4: syntax>client\ndelete a b\n|\
    line 4: syntax>client\nrebuild a 0 0\n|\
    line 4: syntax>client\nappend a hex:\n|\
    line 4: syntax>client\nend\n|\
    line 4: syntax>repairer\nclient\n|\
    line 4: syntax>repairer\nget a\n|\
    line 4: syntax>repairer\nrebuild a 0\n|\
    line 4: syntax>repairer\nrebuild a 00 4\n|\
    line 4: syntax>repairer\nrebuild A 0 4\n|\
    line 4: syntax>repairer\nrebuild a 0 4 \n|\
    line 4: syntax>schedule\nclient\n|\
    line 4: syntax>schedule\nschedule\n|\
    line 4: syntax>schedule\n\n|\
    line 4: syntax>schedule\nget a\n|\
    line 4: syntax>schedule\nc\n|\
    line 4: syntax>schedule\nc 00\n|\
    line 4: syntax>schedule\nc 0 \n|\
    line 4: syntax>schedule\nr -1\n|\
    line 4: syntax>schedule\nC 0\n|\
    line 4: syntax>schedule\ns 0\n|\
    line 4: syntax>schedule\ndrain \n|\
    line 4: syntax>schedule\nwipe 04\n|\
    line 4: syntax>schedule\nwipe\n|\
    line 4: syntax>schedule\nreap s\n|\
    line 4: syntax>schedule\nreap 0\n|\
    line 4: syntax>schedule\nreap c\n|\
    line 4: syntax>schedule\nreap  c 0\n|\
    line 4: syntax>schedule\nreap w 0\n|\
    line 4: syntax>schedule\nendd\n|\
    line 4: syntax>schedule\nend \n";

const STEP_LIMITS: &[u8] = b"\
    line 3: syntax>leave 1\n|\
    line 4: syntax>client\nleave\n|\
    line 4: syntax>client\nleave 01\n|\
    line 4: limit>client\nleave 4294967296\n|\
    line 5: missing end>client\nleave 4294967295\n|\
    line 5: syntax>client\nleave 1\nschedule\n|\
    line 5: syntax>client\nleave 1\nclient\n|\
    line 5: syntax>client\nleave 1\nleave 2\n|\
    line 5: syntax>client\nleave 1\nleave 4294967296\n|\
    line 5: syntax>client\nleave 1\nrebuild a 0 0\n|\
    line 6: syntax>client\nleave 1\nget a\nget a\n|\
    line 6: syntax>client\nleave 1\nget a\nleave 1\n|\
    line 8: no such actor>client\nget a\nleave 0\nget a\nschedule\nc 1\n|\
    line 8: syntax>client\nleave 1\nget a\nclient\nget a\nget A\n|\
    line 5: syntax>repairer\nleave 1\nschedule\n|\
    line 5: syntax>repairer\nleave 1\nrepairer\n|\
    line 5: syntax>repairer\nleave 1\nget a\n|\
    line 5: no such server>repairer\nleave 0\nrebuild a 0 4\n|\
    line 6: syntax>repairer\nleave 1\nrebuild a 0 0\nrebuild a 0 4\n";

// Of bytes 67,108,864 may be asked for at most, of stripes 262,144. A limit goes before the server, and before the actor.
const NUMBERS_OUT_OF_BOUNDS: &[u8] = b"\
    line 3: limit>size 0\n|\
    line 4: missing end>size 1\n|\
    line 4: missing end>size 1048576\n|\
    line 3: limit>size 1048577\n|\
    line 3: limit>size 4294967295\n|\
    line 3: limit>size 4294967296\n|\
    line 3: limit>size 100000000000000000000000000000\n|\
    line 3: limit>tries 0\n|\
    line 4: missing end>tries 1\n|\
    line 4: missing end>tries 8\n|\
    line 3: limit>tries 9\n|\
    line 3: limit>tries 4294967296\n|\
    line 4: limit>client\nput a fill:00:2097153\n|\
    line 4: limit>client\nput a ramp:ff:2097153\n|\
    line 4: limit>client\nput a ramp:00:4294967296\n|\
    line 4: limit>client\nwrite a 0 fill:00:2097153\n|\
    line 4: limit>client\nwrite a 4294967296 hex:00\n|\
    line 5: missing end>client\nwrite a 4294967295 hex:00\n|\
    line 4: limit>client\nread a 4294967296 0\n|\
    line 5: missing end>client\nread a 4294967295 0\n|\
    line 4: limit>client\nread a 0 4294967296\n|\
    line 4: limit>client\nread a 0 123456789012345678901234567890\n|\
    line 4: limit>client\nread a 0 67108865\n|\
    line 6: limit>client\nread a 0 67108864\nread a 0 0\nread a 0 1\n|\
    line 7: limit>client\nread a 0 67043328\nget a\nclient\nread a 0 1\n|\
    line 5: limit>client\nread a 0 67043329\nget a\n|\
    line 6: limit>client\nput a fill:00:2097152\nput a hex:\nput a hex:00\n|\
    line 5: limit>client\nput a fill:00:2097145\nwrite a 0 hex:00\n|\
    line 7: limit>client\nput a fill:00:2097144\nwrite a 8 hex:0000\nwrite a 8 hex:\nwrite a 8 hex:00\n|\
    line 5: limit>client\nput a fill:00:2097144\nwrite a 7 hex:0000\n|\
    line 5: limit>client\nwrite a 4294967295 fill:00:2097145\nwrite a 0 hex:00\n|\
    line 4: limit>client\nwrite a 4294967295 fill:00:2097146\n|\
    line 4: limit>repairer\nrebuild a 4294967296 4\n|\
    line 5: missing end>repairer\nrebuild a 4294967295 3\n|\
    line 4: limit>repairer\nrebuild a 0 4294967296\n|\
    line 4: limit>schedule\nc 4294967296\n|\
    line 4: limit>schedule\nr 4294967296\n|\
    line 4: limit>schedule\nreap c 4294967296\n|\
    line 4: limit>schedule\nreap r 999999999999999999999999999999\n|\
    line 4: limit>schedule\nwipe 4294967296\n|\
    line 6: limit>client\nschedule\nc 0\nc 4294967296\n";

// Of several faulty lines the first is named.
const NAMES_OF_NONE_AND_MISSING_ENDS: &[u8] = b"\
    line 4: no such actor>schedule\nc 0\n|\
    line 4: no such actor>schedule\nr 0\n|\
    line 4: no such actor>schedule\nreap c 0\n|\
    line 4: no such actor>schedule\nreap r 0\n|\
    line 5: no such actor>client\nschedule\nc 1\n|\
    line 5: no such actor>client\nschedule\nc 4294967295\n|\
    line 5: no such actor>client\nschedule\nr 0\n|\
    line 5: no such actor>client\nschedule\nreap c 1\n|\
    line 5: no such actor>repairer\nschedule\nc 0\n|\
    line 5: no such actor>repairer\nschedule\nr 1\n|\
    line 10: no such actor>client\nrepairer\nschedule\nc 0\nr 0\nreap c 0\nreap r 0\nreap r 1\n|\
    line 4: no such server>repairer\nrebuild a 0 4\n|\
    line 4: no such server>repairer\nrebuild a 0 4294967295\n|\
    line 5: no such server>repairer\nrebuild a 0 3\nrebuild a 0 4\n|\
    line 4: no such server>schedule\nwipe 4\n|\
    line 4: no such server>schedule\nwipe 4294967295\n|\
    line 5: no such server>schedule\nwipe 3\nwipe 4\n|\
    line 3: missing end>|\
    line 3: missing end>size 8|\
    line 3: missing end>size 0|\
    line 4: missing end>client\n|\
    line 4: missing end>client\nput a hex:0|\
    line 4: missing end>repairer\nrebuild a 0 9|\
    line 4: missing end>schedule\n|\
    line 4: missing end>schedule\nc 0|\
    line 4: missing end>schedule\nend|\
    line 4: missing end>schedule\nend |\
    line 5: missing end>schedule\nwipe 3\nc|\
    line 5: missing end>schedule\ndrain\n|\
    line 4: no such actor>schedule\nc 0\nc|\
    line 4: no such server>schedule\nwipe 4\nend|\
    line 4: no such server>schedule\nwipe 4\nc 0\n\nend\n|\
    line 4: no such actor>schedule\nc 0\nwipe 4\n|\
    line 3: limit>size 0\nclient\nget|\
    line 3: limit>tries 9\nsize 0\n|\
    line 4: syntax>client\nget A\nleave 4294967296\n";

const SERVERS_AWAY_IN_FORM_TWO_ALONE: &[u8] = b"\
    line 4: syntax>clay 1\ncode 2 2 1\nschedule\ndown 0\n|\
    line 4: syntax>clay 1\ncode 2 2 1\nschedule\nup 4294967296\n|\
    line 4: limit>clay 2\ncode 2 2 1\nschedule\nup 4294967296\n|\
    line 4: no such server>clay 2\ncode 2 2 1\nschedule\ndown 4\n|\
    line 4: syntax>clay 2\ncode 2 2 1\nschedule\ndown\n|\
    line 4: syntax>clay 2\ncode 2 2 1\nschedule\ndown 00\n";

#[test]
fn scripts_with_one_damaged_line(rt: HostRuntime) -> Result<(), Fail> {
    let alloc = rt.alloc();
    has_faults(alloc, b"", 47, FIRST_TWO_LINES)?;
    has_faults(alloc, HEAD, 88, LINES_WITHOUT_A_FORM)?;
    has_faults(alloc, HEAD, 19, STEP_LIMITS)?;
    has_faults(alloc, HEAD, 41, NUMBERS_OUT_OF_BOUNDS)?;
    has_faults(alloc, HEAD, 36, NAMES_OF_NONE_AND_MISSING_ENDS)?;
    has_faults(alloc, b"", 6, SERVERS_AWAY_IN_FORM_TWO_ALONE)
}

/// What may stand behind the last line of a script, each with the fault that it is.
const BEHIND: &[u8] = b"\
    line 5: syntax>\n|\
    line 5: syntax> |\
    line 5: syntax>e|\
    line 5: syntax>\0|\
    line 5: syntax>end\n|\
    line 5: syntax>end\nend\n|\
    line 5: syntax>clay 1\ncode 2 2 1\nschedule\nend\n|\
    line 5: syntax>H 0 c0.0 ok\nend";

#[test]
fn behind_the_last_line(rt: HostRuntime) -> Result<(), Fail> {
    let text: &[u8] = b"clay 1\ncode 2 2 1\nschedule\nend\n";
    has_faults(rt.alloc(), text, 8, BEHIND)?;
    for row in BEHIND.split(|byte| *byte == b'|') {
        let (_, end) = parts(row)?;
        begins_with(rt.alloc(), text, end)?;
    }
    Ok(())
}

// Each kind of fault and its line, as they are printed.
fn printed(alloc: Global) -> Result<String, AllocError> {
    let fault = ScriptFault {
        line: 4,
        kind: NoSuchActor,
    };
    format!(in alloc;
        "{Syntax}; {Geometry}; {Limit}; {NoSuchActor}; {NoSuchServer}; {MissingEnd}; {OutOfMemory}; {fault}"
    )
}

const PRINTED: &[u8] = b"\
syntax; geometry; limit; no such actor; no such server; missing end; out of memory; line 4: no such actor";

#[test]
fn faults_are_printed(rt: HostRuntime) -> Result<(), Fail> {
    let numbers = [
        Syntax as u8,
        Geometry as u8,
        Limit as u8,
        NoSuchActor as u8,
        NoSuchServer as u8,
        MissingEnd as u8,
        OutOfMemory as u8,
    ];
    same(&numbers, &[1, 2, 3, 4, 5, 6, 7])?;
    same(printed(rt.alloc())?.as_bytes(), PRINTED)
}
