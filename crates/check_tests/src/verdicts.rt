//! Transcripts that are judged: those that break no rule, and others that each break one.
use crate::judge::{ALONE, BEFORE_ITS_END, SCRIPT, are_judged};
use std::test::Fail;
use text_tables::fault_tables::Around;

// More than two of four servers are away when the put asks them.
const AWAY: &[u8] = b"\
clay 2
code 2 2 1
client
put a hex:00
get a
schedule
down 0
down 1
down 2
drain
end
";

const HISTORIES_OF_A_RUN: &[u8] = b"\
legal
>H 0 c0.0 ok
H 1 c1.0 ok
H 2 c0.1 bytes hex:0102
H 3 c1.1 nosuch
H 4 c2.0 ok
R r0.0 rebuilt
R r0.1 here
L a 2
G c0.1 1 1 0 0
G r0.0 1 0 2 1
T 0 2 1 0
T 1 1 1 1
T 2 2 1 0
T 3 1 1 0
end
|legal
>H 0 c0.0 open
H 1 c1.0 ok
O c0.0
L a 2
T 0 0 1 0
T 1 0 1 1
T 2 0 1 0
T 3 0 1 0
end
";

const HISTORIES_WITH_SERVERS_AWAY: &[u8] = b"\
legal
>H 1 c0.1 nosuch
X c0.0 unavailable stripe 0 missing 0/u1/a1 1/u1/a1 2/u1/a1
T 0 0 0 0
T 1 0 0 0
T 2 0 0 0
T 3 0 0 0
end
|cause c0.0 0 1
>H 1 c0.1 nosuch
X c0.0 unavailable stripe 0 missing 0/u1/a1 1/u1/a1 3/u1/a1
T 0 0 0 0
T 1 0 0 0
T 2 0 0 0
T 3 0 0 0
end
";

const CALLS_THAT_NOBODY_MADE: &[u8] = b"\
misplaced c1.2 2 2
>H 0 c0.0 ok
H 1 c1.2 ok
|misplaced c5.0 0 0
>H 0 c0.0 ok
X c5.0 nomem
";

const CALLS_OUT_OF_ORDER: &[u8] = b"\
misplaced c0.0 1 0
>H 0 c0.1 nosuch
H 1 c0.0 ok
|misplaced c0.1 0 1
>H 1 c1.0 ok
H 2 c0.1 bytes hex:0102
|misplaced c0.0 1 0
>H 0 c0.0 ok
H 1 c1.0 ok
X c0.0 nomem
";

const REPLIES_OF_ANOTHER_MAP: &[u8] = b"\
differs c0.1 expected bytes hex:0102 got bytes hex:00
>H 0 c0.0 ok
H 1 c1.0 ok
H 2 c0.1 bytes hex:00
|differs c1.1 expected nosuch got open
>H 0 c1.0 ok
H 1 c1.1 open
O c1.1
";

const CALLS_WITHOUT_A_REPLY: &[u8] = b"\
misplaced c0.0 0 2
>H 0 c0.0 open
H 1 c1.0 ok
|misplaced c0.0 1 0
>H 0 c0.0 ok
H 1 c1.0 ok
O c0.0
|misplaced c0.1 0 1
>H 1 c1.0 ok
O c0.0
O c0.1
";

const LOSSES_THAT_NOBODY_CAUSED: &[u8] = b"\
cause c1.1 0 1
>H 1 c1.0 ok
X c1.1 unavailable stripe 0 missing 1/0/1
|cause c0.1 3 2
>H 0 c0.0 ok
X c0.1 unavailable stripe 0 missing 1/0/1 0/0/1
|cause c0.1 4 9
>H 0 c0.0 ok
X c0.1 unavailable stripe 0 missing 1/0/1 9/0/1 0/0/1
|cause c0.1 3 2
>H 0 c0.0 ok
X c0.1 unavailable stripe 0 missing 1/0/1 1/0/1 0/0/1
|cause c0.1 1 1
>H 0 c0.0 ok
X c0.1 unavailable stripe 0 missing 1/1/1 0/0/1 2/0/1
|cause c0.1 0 1
>H 0 c0.0 ok
X c0.1 unavailable stripe 0 missing 1/0/1 0/0/1 2/0/1
|cause c0.1 0 1
>H 0 c0.0 ok
X c0.1 unavailable stripe 0 missing 1/0/1 0/u1/a1 2/0/1
";

const RACES_THAT_NOBODY_WON: &[u8] = b"\
cause c0.1 0 1
>H 0 c0.0 ok
H 1 c1.0 ok
X c0.1 contended 0/1 1/2
|cause c2.0 2 1
>H 0 c0.0 ok
H 1 c1.0 ok
X c2.0 contended 0/1
|cause c2.0 3 2
>H 0 c0.0 ok
H 1 c1.0 ok
X c2.0 contended 3/2 2/4
|cause c2.0 1 0
>H 0 c0.0 ok
H 1 c1.0 ok
X c2.0 contended 0/1 0/1
|cause c2.0 1 0
>H 0 c0.0 ok
H 1 c1.0 ok
X c2.0 contended 0/1 1/2
";

const OTHER_CAUSES: &[u8] = b"\
cause c1.1 1 2
>H 0 c0.0 ok
X c1.0 reaped 5
X c1.1 reaped 6
|cause r0.0 1 0
>H 0 c0.0 ok
H 1 c1.0 ok
R r0.0 superseded 7
|cause r0.0 0 1
>H 0 c0.0 ok
H 1 c1.0 ok
R r0.0 away 1
";

const BEHIND_THE_LINES: Around<'static> = Around {
    before: b"\
H 0 c0.0 ok
H 1 c1.0 ok
H 2 c0.1 bytes hex:0102
R r0.0 rebuilt
",
    behind: b"",
};

const TAKES_WITHOUT_A_CALL: &[u8] = b"\
tail open expected O r0.0 got -
>H 0 c0.0 ok
H 1 c1.0 ok
L a 2
G r0.0 1 0 0 0
T 0 1 1 0
T 1 0 1 1
T 2 0 1 0
T 3 0 1 0
end
";

const OTHER_OBJECTS: &[u8] = b"\
tail list expected L a 2 got L a 3
>L a 3
T 0 0 1 0
T 1 0 1 1
T 2 0 1 0
T 3 0 1 0
end
|tail list expected L a 2 got -
>T 0 0 1 0
T 1 0 1 1
T 2 0 1 0
T 3 0 1 0
end
|tail list expected - got L c 0
>L a 2
L c 0
T 0 0 1 0
T 1 0 1 1
T 2 0 1 0
T 3 0 1 0
end
";

const OTHER_SUMS: &[u8] = b"\
tail taken expected T 0 2 1 0 got T 0 1 1 0
>L a 2
G c0.1 1 1 0 0
G r0.0 1 0 2 1
T 0 1 1 0
T 1 1 1 1
T 2 2 1 0
T 3 1 1 0
end
|tail taken expected T 1 0 1 1 got T 1 0 1 0
>L a 2
T 0 0 1 0
T 1 0 1 0
T 2 0 1 0
T 3 0 1 0
end
|tail taken expected T 0 18446744073709551616 1 0 got T 0 0 1 0
>L a 2
G c0.1 18446744073709551615 0 0 0
G r0.0 1 0 0 0
T 0 0 1 0
T 1 0 1 1
T 2 0 1 0
T 3 0 1 0
end
|legal
>L a 2
T 0 0 1 0
T 1 0 1 1
T 2 0 1 0
T 3 0 1 0
end
";

#[test]
fn transcripts_are_judged(rt: HostRuntime) -> Result<(), Fail> {
    let alloc = rt.alloc();
    are_judged(alloc, SCRIPT, ALONE, 2, HISTORIES_OF_A_RUN)?;
    are_judged(alloc, AWAY, ALONE, 2, HISTORIES_WITH_SERVERS_AWAY)?;
    are_judged(alloc, SCRIPT, BEFORE_ITS_END, 2, CALLS_THAT_NOBODY_MADE)?;
    are_judged(alloc, SCRIPT, BEFORE_ITS_END, 3, CALLS_OUT_OF_ORDER)?;
    are_judged(alloc, SCRIPT, BEFORE_ITS_END, 2, REPLIES_OF_ANOTHER_MAP)?;
    are_judged(alloc, SCRIPT, BEFORE_ITS_END, 3, CALLS_WITHOUT_A_REPLY)?;
    are_judged(alloc, SCRIPT, BEFORE_ITS_END, 7, LOSSES_THAT_NOBODY_CAUSED)?;
    are_judged(alloc, SCRIPT, BEFORE_ITS_END, 5, RACES_THAT_NOBODY_WON)?;
    are_judged(alloc, SCRIPT, BEFORE_ITS_END, 3, OTHER_CAUSES)?;
    are_judged(alloc, SCRIPT, ALONE, 1, TAKES_WITHOUT_A_CALL)?;
    are_judged(alloc, SCRIPT, BEHIND_THE_LINES, 3, OTHER_OBJECTS)?;
    are_judged(alloc, SCRIPT, BEHIND_THE_LINES, 4, OTHER_SUMS)
}
