//! The command `verify`.
use crate::command_scripts::PUT_THEN_GET;
use crate::tables::{ALONE, all_answer};
use std::test::Fail;
use text_tables::fault_tables::Around;

const TAIL: &[u8] = b"G c0.1 4 4 0 0\nT 0 4 1 0\nT 1 4 1 0\nT 2 0 1 0\nT 3 0 1 0\nend\n";

// Lines of a transcript of the script, with the rule that they break, or none.
const VERDICTS: &[u8] = b"\
verify>0>1>\
H 0 c0.0 ok\nH 1 c0.1 bytes hex:0100000000000000\nL a 8\n>legal\n\
#verify>8>4>\
H 0 c0.0 ok\nH 1 c0.1 bytes hex:0200000000000000\nL a 8\n>\
differs c0.1 expected bytes hex:0100000000000000 got bytes hex:0200000000000000\n\
|H 0 c0.0 ok\nH 1 c0.2 length 8\nL a 8\n>misplaced c0.2 2 2\n\
|H 0 c0.0 ok\nX c0.1 unavailable stripe 0 missing 0/0/0 1/0/0 2/0/0\nL a 8\n>cause c0.1 0 0\n\
|H 0 c0.0 ok\nH 1 c0.1 bytes hex:0100000000000000\nL a 7\n>tail list expected L a 8 got L a 7\n";

// Texts behind the script that are no transcripts, with what is said of them.
const REFUSED_TRANSCRIPTS: &[u8] = b"\
verify>2>6>\
>refused line 9 missing end\n\
|end\n>refused line 9 syntax\n\
|H 0 c0.0 ok>refused line 9 missing end\n\
|H 0 c0.0 ok\nH 0 c0.1 nosuch\n>refused line 10 syntax\n\
|H 0 c0.0 ok\r\n>refused line 9 syntax\n\
|T 0 0 0 0\nT 1 0 0 0\nT 2 0 0 0\nT 3 0 0 0\nend\nx>refused line 14 syntax\n";

// Scripts that are refused, with what is said of them. Behind them a get after three losses, and a transcript of it in which server 2
// tells its loss of another epoch: the chunk was placed in epoch 0, so this is no cause.
const SCRIPTS: &[u8] = b"\
verify>2>3>\
>refused line 1 missing end\n\
|clay 1\ncode 1 2 1\n>refused line 2 geometry\n\
|clay 1\ncode 2 2 1\nschedule\n>refused line 4 missing end\n\
#verify>8>1>\
clay 1
code 2 2 1
client
put a hex:0100000000000000
get a
schedule
c 0
c 0
c 0
c 0
c 0
c 0
c 0
c 0
c 0
c 0
c 0
wipe 0
wipe 1
wipe 2
drain
end
H 0 c0.0 ok
X c0.1 unavailable stripe 0 missing 0/0/1 1/0/1 2/1/1
L a 8
T 0 0 0 1
T 1 0 0 1
T 2 0 0 1
T 3 0 1 0
end
>cause c0.1 1 1
";

#[test]
fn verdicts_and_refusals(rt: HostRuntime) -> Result<(), Fail> {
    let between = Around {
        before: PUT_THEN_GET,
        behind: TAIL,
    };
    let behind = Around {
        before: PUT_THEN_GET,
        behind: b"",
    };
    all_answer(&rt, between, 2, VERDICTS)?;
    all_answer(&rt, behind, 1, REFUSED_TRANSCRIPTS)?;
    all_answer(&rt, ALONE, 2, SCRIPTS)
}
