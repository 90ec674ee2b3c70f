//! Reads and writes that fail in the middle of a session: a put, a get and an end, of 15, 7 and no bytes, whose answers have 5
//! and 13.
use crate::session_row_tests::row_holds;
use crate::session_runs::{Failing, NOTHING};
use std::test::Fail;

// The read of this number fails.
fn read(number: &[u64]) -> Failing<'_> {
    Failing {
        reads: number,
        writes: NOTHING.writes,
    }
}

// The write of this number fails.
fn write(number: &[u64]) -> Failing<'_> {
    Failing {
        reads: NOTHING.reads,
        writes: number,
    }
}

// Before the first frame, in the second one, and behind both.
const READ_0: &[u8] = b"0000000b 0101610100000000000000>4>";

const READ_20: &[u8] = b"0000000b 0101610100000000000000 00000003 020161>4>00000001 00";

const READ_22: &[u8] = b"\
0000000b 0101610100000000000000 00000003 020161>4>00000001 00 00000009 010100000000000000";

// Of the first answer, and of the second one.
const WRITE_2: &[u8] = b"0000000b 0101610100000000000000 00000003 020161>5>0000";

const WRITE_9: &[u8] = b"\
0000000b 0101610100000000000000 00000003 020161>5>00000001 00 00000009";

#[test]
fn reads_and_writes_fail(rt: HostRuntime) -> Result<(), Fail> {
    row_holds(&rt, READ_0, read(&[0]))?;
    row_holds(&rt, READ_20, read(&[20]))?;
    row_holds(&rt, READ_22, read(&[22]))?;
    row_holds(&rt, WRITE_2, write(&[2]))?;
    row_holds(&rt, WRITE_9, write(&[9]))
}
