//! Worked scripts in which chunks are lost and made again.
use crate::worked_calls::{Repeated, show_from};
use std::test::Fail;

// Gets after a put whose chunks are lost.
pub const READS: &[u8] = b"\
a get after one loss makes the chunk from the repair layers>
client
put a hex:0100000000000000
get a
schedule
c 0*11
wipe 0
drain
end
>
H 0 c0.0 ok
H 1 c0.1 bytes hex:0100000000000000
L a 8
G c0.1 0 6 2 2
T 0 0 0 1
T 1 6 1 0
T 2 2 1 0
T 3 2 1 0
end
|a get after three losses is refused>
client
put a hex:0100000000000000
get a
schedule
c 0*11
wipe 0
wipe 1
wipe 2
drain
end
>
H 0 c0.0 ok
X c0.1 unavailable stripe 0 missing 0/0/1 1/0/1 2/0/1
L a 8
T 0 0 0 1
T 1 0 0 1
T 2 0 0 1
T 3 0 1 0
end
|a get after two losses decodes its bytes>
client
put a hex:0100000000000000
get a
schedule
c 0*11
wipe 0
wipe 1
drain
end
>
H 0 c0.0 ok
H 1 c0.1 bytes hex:0100000000000000
L a 8
G c0.1 0 0 4 4
T 0 0 0 1
T 1 0 0 1
T 2 4 1 0
T 3 4 1 0
end
";

// Rebuilds of one chunk.
pub const REBUILDS: &[u8] = b"\
a rebuild of a stripe that is replaced meanwhile>
clay 1
code 2 2 1
client
put a hex:0100000000000000
put a hex:0200000000000000
repairer
rebuild a 0 0
schedule
c 0*11
wipe 0
r 0*8
c 0*11
drain
end
>
H 0 c0.0 ok
H 1 c0.1 ok
R r0.0 superseded 1
L a 8
G r0.0 0 2 2 2
T 0 0 1 1
T 1 2 1 0
T 2 2 1 0
T 3 2 1 0
end
|a chunk is rebuilt, and found there by the next rebuild>
clay 1
code 3 2 1
client
put a ramp:00:24
get a
repairer
rebuild a 0 1
rebuild a 0 1
schedule
c 0*13
wipe 1
r 0*13
wipe 0
drain
end
>
H 0 c0.0 ok
H 1 c0.1 bytes hex:000102030405060708090a0b0c0d0e0f1011121314151617
R r0.0 rebuilt
R r0.1 here
L a 24
G c0.1 0 12 12 4 4
G r0.0 4 0 4 4 4
T 0 4 0 1
T 1 12 1 1
T 2 16 1 0
T 3 8 1 0
T 4 8 1 0
end
";

const PUT_AND_GET: &[u8] = b"\
clay 1
code 2 2 1
client
put a hex:0100000000000000
get a
schedule
";

// A server is emptied after so many of the put's eleven steps.
const ONE_LOSS: Repeated<'static> = Repeated {
    name: "one loss in a put",
    before: PUT_AND_GET,
    line: b"c 0",
    behind: b"\
wipe 0
drain
end
",
};

const BEFORE_ITS_CHUNK: &[u8] = b"\
H 0 c0.0 ok
H 1 c0.1 bytes hex:0100000000000000
L a 8
G c0.1 4 4 0 0
T 0 4 1 1
T 1 4 1 0
T 2 0 1 0
T 3 0 1 0
end
";

const AFTER_ITS_CHUNK: &[u8] = b"\
H 0 c0.0 ok
H 1 c0.1 bytes hex:0100000000000000
L a 8
G c0.1 0 6 2 2
T 0 0 0 1
T 1 6 1 0
T 2 2 1 0
T 3 2 1 0
end
";

// Three servers are emptied after so many of the put's eleven steps.
const THREE_LOSSES: Repeated<'static> = Repeated {
    name: "three losses in a put",
    before: PUT_AND_GET,
    line: b"c 0",
    behind: b"\
wipe 0
wipe 1
wipe 2
drain
end
",
};

const NONE_LOST: &[u8] = b"\
H 0 c0.0 ok
H 1 c0.1 bytes hex:0100000000000000
L a 8
G c0.1 4 4 0 0
T 0 4 1 1
T 1 4 1 1
T 2 0 1 1
T 3 0 1 0
end
";

const ONE_LOST: &[u8] = b"\
H 0 c0.0 ok
H 1 c0.1 bytes hex:0100000000000000
L a 8
G c0.1 0 6 2 2
T 0 0 0 1
T 1 6 1 1
T 2 2 1 1
T 3 2 1 0
end
";

const TWO_LOST: &[u8] = b"\
H 0 c0.0 ok
H 1 c0.1 bytes hex:0100000000000000
L a 8
G c0.1 0 0 4 4
T 0 0 0 1
T 1 0 0 1
T 2 4 1 1
T 3 4 1 0
end
";

const THREE_LOST: &[u8] = b"\
H 0 c0.0 ok
X c0.1 unavailable stripe 0 missing 0/0/1 1/0/1 2/0/1
L a 8
T 0 0 0 1
T 1 0 0 1
T 2 0 0 1
T 3 0 1 0
end
";

// After a put, a server is emptied after so many of the write's thirteen steps.
const WRITE: Repeated<'static> = Repeated {
    name: "a loss in a write",
    before: b"\
clay 1
code 2 2 1
client
put a hex:0100000000000000
write a 1 hex:05
get a
schedule
c 0*11
",
    line: b"c 0",
    behind: b"\
wipe 0
drain
end
",
};

const OLD_CHUNK_LOST: &[u8] = b"\
H 0 c0.0 ok
H 1 c0.1 ok
H 2 c0.2 bytes hex:0105000000000000
L a 8
G c0.1 0 6 2 2
G c0.2 4 4 0 0
T 0 4 1 1
T 1 10 1 0
T 2 2 1 0
T 3 2 1 0
end
";

const BETWEEN_THE_CHUNKS: &[u8] = b"\
H 0 c0.0 ok
H 1 c0.1 ok
H 2 c0.2 bytes hex:0105000000000000
L a 8
G c0.1 4 4 0 0
G c0.2 4 4 0 0
T 0 8 1 1
T 1 8 1 0
T 2 0 1 0
T 3 0 1 0
end
";

const NEW_CHUNK_LOST: &[u8] = b"\
H 0 c0.0 ok
H 1 c0.1 ok
H 2 c0.2 bytes hex:0105000000000000
L a 8
G c0.1 4 4 0 0
G c0.2 0 6 2 2
T 0 4 0 1
T 1 10 1 0
T 2 2 1 0
T 3 2 1 0
end
";

// A second server is emptied after so many of the rebuild's eleven steps.
const REBUILD: Repeated<'static> = Repeated {
    name: "a loss in a rebuild",
    before: b"\
clay 1
code 2 2 1
client
put a hex:0100000000000000
repairer
rebuild a 0 0
schedule
c 0*11
wipe 0
",
    line: b"r 0",
    behind: b"\
wipe 1
drain
end
",
};

const FROM_WHOLE_CHUNKS: &[u8] = b"\
H 0 c0.0 ok
R r0.0 rebuilt
L a 8
G r0.0 0 0 4 4
T 0 0 1 1
T 1 0 0 1
T 2 4 1 0
T 3 4 1 0
end
";

const FROM_REPAIR_LAYERS: &[u8] = b"\
H 0 c0.0 ok
R r0.0 rebuilt
L a 8
G r0.0 0 2 2 2
T 0 0 1 1
T 1 2 0 1
T 2 2 1 0
T 3 2 1 0
end
";

#[test]
fn losses_at_each_step(rt: HostRuntime) -> Result<(), Fail> {
    show_from(&rt, ONE_LOSS, 0, 3, BEFORE_ITS_CHUNK)?;
    show_from(&rt, ONE_LOSS, 3, 12, AFTER_ITS_CHUNK)?;
    show_from(&rt, THREE_LOSSES, 0, 3, NONE_LOST)?;
    show_from(&rt, THREE_LOSSES, 3, 4, ONE_LOST)?;
    show_from(&rt, THREE_LOSSES, 4, 5, TWO_LOST)?;
    show_from(&rt, THREE_LOSSES, 5, 12, THREE_LOST)?;
    show_from(&rt, WRITE, 0, 2, OLD_CHUNK_LOST)?;
    show_from(&rt, WRITE, 2, 5, BETWEEN_THE_CHUNKS)?;
    show_from(&rt, WRITE, 5, 14, NEW_CHUNK_LOST)?;
    show_from(&rt, REBUILD, 0, 6, FROM_WHOLE_CHUNKS)?;
    show_from(&rt, REBUILD, 6, 12, FROM_REPAIR_LAYERS)
}
