//! Worked sessions.
use crate::session_runs::{Failing, NOTHING, WORDS, run_with};
use clay_par::ParCoder;
use hex::FromHexError;
use std::alloc::Global;
use std::str;
use std::test::Fail;
use std::thread::Threads;
use text_tables::counting::Counting;
use text_tables::fault_tables::{failed, parts, rows_of};

// The bytes that a text of digits spells, which blanks may part for the reader.
fn bytes_of(alloc: Global, text: &[u8]) -> Result<Vec<u8>, Fail> {
    let mut digits = Vec::new(alloc);
    for byte in text {
        if *byte != b' ' {
            digits.push(*byte)?;
        }
    }
    match hex::decode(alloc, &digits) {
        Ok(bytes) => Ok(bytes),
        Err(FromHexError::OutOfMemory) => Err(Fail::from("out of memory")),
        Err(_) => Err(Fail::from("no digits")),
    }
}

// Whether a session has this exit status and writes that.
fn ends_so<R: Threads + Sync + AllocGlobal>(
    rt: &R,
    input: &[u8],
    failing: Failing,
    status: u8,
    output: &[u8],
) -> Result<bool, Fail> {
    let ran = run_with(rt, WORDS, input, failing, &Counting::new(ParCoder))?;
    Ok(ran.status.number() == status && ran.written.as_slice() == output)
}

/// Holds a row, an input, its exit status and what is written for it, parted by `>`, against the session
/// in which these calls fail.
pub fn row_holds<R: Threads + Sync + AllocGlobal>(
    rt: &R,
    row: &[u8],
    failing: Failing,
) -> Result<(), Fail> {
    let alloc = rt.alloc();
    let (input, rest) = parts(row)?;
    let (status, output) = parts(rest)?;
    let status = str::from_utf8(status)?.parse()?;
    let input = bytes_of(alloc, input)?;
    let output = bytes_of(alloc, output)?;
    if ends_so(rt, &input, failing, status, &output)? {
        return Ok(());
    }
    Err(failed(row))
}

/// Holds each row of a table, parted by `;`; there are so many.
pub fn rows_hold<R: Threads + Sync + AllocGlobal>(
    rt: &R,
    rows: usize,
    table: &[u8],
) -> Result<(), Fail> {
    for row in &rows_of(rt.alloc(), table, b';', rows)? {
        row_holds(rt, row, NOTHING)?;
    }
    Ok(())
}

const ROWS: &[u8] = b"\
0000000b0101610100000000000000\
>0>0000000100\
;0000000b0101610100000000000000 00000003020161\
>0>0000000100 00000009010100000000000000\
;0000000b0101610100000000000000 00000003020161 000000050700000000 000000050700000001 000000050700000002 00000003020161\
>0>0000000100 00000009010100000000000000 0000000100 0000000100 0000000100 00000042060000000003000000000000000000000000000000000000000100000001000000000000000000000000000000010000000200000000000000000000000000000001\
;000000\
>11>\
;00000000\
>10>\
;0000000b0101610100000000000000 0000000109 0000000b0101610200000000000000 0000000b0a01610000000000000008 000000010b 0000000b0a01610000000000000008\
>0>0000000100 0000000100 0000000100 00000009010100000000000000 0000000100 000000010c\
;0000000b0101610100000000000000 000000050700000000 000000050700000001 000000010c\
>0>0000000100 0000000100 0000000100 000000190f000000020161000000000000000001610000000000000001\
;0000000b0101610100000000000000 000000050700000000 000000050700000001 000000010c 000000010d\
>0>0000000100 0000000100 0000000100 000000190f000000020161000000000000000001610000000000000001 000000291000000000000000020000000000000002000000000000000000000000000000060000000000000006\
;0000000b0101610100000000000000 000000050700000000 0000000b0801610000000000000000 0000000b0801610000000000000000\
>0>0000000100 0000000100 000000010a 000000010b";

#[test]
fn sessions_are_served(rt: HostRuntime) -> Result<(), Fail> {
    rows_hold(&rt, 9, ROWS)
}
