//! Tables of bytes with what is read of them, as `{:?}` prints it: requests of each kind and frames that are none, how inputs end,
//! and reads that fail.
use clay_bytes::DripSource;
use frame_bytes::{most_input, read_frame, request_of};
use std::alloc::{AllocError, Global};
use std::test::Fail;
use text_tables::fault_tables::{parts, rows_of, same};

// The request of a frame, in a code of four servers.
fn request_shown(alloc: Global, frame: &[u8]) -> Result<String, Fail> {
    if frame.len() >= 100 {
        return Err(Fail::from("too long"));
    }
    let request = request_of(alloc, 4, frame)?;
    Ok(format!(in alloc; "{request:?}")?)
}

fn drip(alloc: Global, bytes: &[u8], failing: &[u64]) -> Result<DripSource, AllocError> {
    Ok(DripSource::new(
        Vec::from_slice(alloc, bytes)?,
        Vec::from_slice(alloc, failing)?,
    ))
}

// What stands next in a source of which so many bytes are served.
fn next_shown(alloc: Global, source: &mut DripSource, room: u64) -> Result<String, Fail> {
    let next = read_frame(alloc, source, room);
    Ok(format!(in alloc; "{next:?}")?)
}

// What stands first in an input of which so many bytes are served.
fn first_shown(alloc: Global, bytes: &[u8], room: u64) -> Result<String, Fail> {
    let mut source = drip(alloc, bytes, &[])?;
    next_shown(alloc, &mut source, room)
}

// What reads the bytes of a row.
#[derive(Clone, Copy)]
enum Reader {
    // Of a frame's request.
    Request,
    // Of what stands first in an input of which so many bytes are served.
    Input(u64),
}

fn is_read(alloc: Global, reader: Reader, row: &[u8]) -> Result<(), Fail> {
    let (bytes, wanted) = parts(row)?;
    let found = match reader {
        Reader::Request => request_shown(alloc, bytes)?,
        Reader::Input(room) => first_shown(alloc, bytes, room)?,
    };
    same(found.as_bytes(), wanted)
}

// Holds what is read of each row's bytes against what that row says. The rows are parted by `;`, and a row's
// bytes and what is read of them by `>`; there are so many.
fn are_read(alloc: Global, reader: Reader, rows: usize, table: &[u8]) -> Result<(), Fail> {
    for row in &rows_of(alloc, table, b';', rows)? {
        is_read(alloc, reader, row)?;
    }
    Ok(())
}

const OF_THE_MAP: &[u8] = b"\
\x01\x01a\x05\x06>Some(OfMap(Put { name: Name { bytes: [97] }, content: Hex(HexBytes { bytes: [5, 6] }) }))\
;\x02\x01a>Some(OfMap(Get { name: Name { bytes: [97] } }))\
;\x03\x01a\0\0\0\x01\x01\0\0\0>Some(OfMap(ReadAt { name: Name { bytes: [97] }, offset: 1, length: 16777216 }))\
;\x04\x01a\0\0\x01\x02>Some(OfMap(Write { name: Name { bytes: [97] }, offset: 258, content: Hex(HexBytes { bytes: [] }) }))\
;\x05\x01a>Some(OfMap(Stat { name: Name { bytes: [97] } }))\
;\x06\x01a>Some(OfMap(Delete { name: Name { bytes: [97] } }))";

const OF_CHUNKS_AND_SNAPSHOTS: &[u8] = b"\
\x07\0\0\0\x03>Some(Lose { server: 3 })\
;\x08\x01a\0\0\0\x01\0\0\0\x02>Some(Rebuild { name: Name { bytes: [97] }, stripe: 1, server: 2 })\
;\x09>Some(Snap)\
;\x0a\x01a\0\0\0\x02\0\0\0\x03>Some(SnapRead { name: Name { bytes: [97] }, offset: 2, length: 3 })\
;\x0b>Some(SnapDrop)\
;\x0c>Some(Scrub)\
;\x0d>Some(Heal)";

// No kind, one that there isn't, and a field too many; then fields that are none, or not all there.
const NONE: &[u8] = b"\
>None\
;\0>None\
;\x0e>None\
;\xff\x01a>None\
;\x09\0>None\
;\x02\0>None\
;\x02\x01A>None\
;\x02\x02a>None\
;\x02\x01aa>None\
;\x07\0\0\0\x04>None\
;\x07\0\0\0>None\
;\x08\x01b\0\0\0\0\0\0\0\x04>None\
;\x0a\x01a\0\0\0\0>None";

const ENDINGS: &[u8] = b"\
>Ok(End(Done))\
;\0\0\0>Ok(End(TornFrame))\
;\0\0\0\0>Ok(End(FrameTooLong))\
;\0\x10\0\x7c>Ok(End(TornFrame))\
;\0\x10\0\x7d>Ok(End(FrameTooLong))\
;\0\0\0\x02\x0d>Ok(End(TornFrame))";

// A length isn't judged whose last byte isn't served.
const SERVED_0: &[u8] = b">Ok(End(Done));\0>Ok(End(InputTooLong))";

const SERVED_3: &[u8] = b"\0\0\0>Ok(End(TornFrame));\0\0\0\0>Ok(End(InputTooLong))";

const SERVED_5: &[u8] = b"\
\0\0\0\x02\x0d>Ok(End(TornFrame))\
;\0\0\0\x02\x0d\x0d>Ok(End(InputTooLong))\
;\0\0\0\x01\x0d>Ok(Frame(ListOf { items: [13] }))";

#[test]
fn frames_are_read(rt: HostRuntime) -> Result<(), Fail> {
    let alloc = rt.alloc();
    are_read(alloc, Reader::Request, 6, OF_THE_MAP)?;
    are_read(alloc, Reader::Request, 7, OF_CHUNKS_AND_SNAPSHOTS)?;
    are_read(alloc, Reader::Request, 13, NONE)?;
    are_read(alloc, Reader::Input(most_input()), 6, ENDINGS)?;
    are_read(alloc, Reader::Input(0), 2, SERVED_0)?;
    are_read(alloc, Reader::Input(3), 2, SERVED_3)?;
    are_read(alloc, Reader::Input(5), 3, SERVED_5)
}

const THREE: &[u8] = b"\0\0\0\x01\x09\0\0\0\x03\x02\x01a";

// What stands next in the input behind so many bytes of it.
fn stands_behind(
    alloc: Global,
    source: &mut DripSource,
    taken: u64,
    wanted: &[u8],
) -> Result<(), Fail> {
    let found = next_shown(alloc, source, most_input().saturating_sub(taken))?;
    same(found.as_bytes(), wanted)
}

fn stand_behind_another(alloc: Global, source: &mut DripSource) -> Result<(), Fail> {
    stands_behind(alloc, source, 0, b"Ok(Frame(ListOf { items: [9] }))")?;
    stands_behind(alloc, source, 5, b"Ok(Frame(ListOf { items: [2, 1, 97] }))")?;
    stands_behind(alloc, source, 12, b"Ok(End(Done))")
}

// What is read of a frame of two bytes where the read with this number fails.
fn is_read_where(alloc: Global, failing: u64, wanted: &[u8]) -> Result<(), Fail> {
    let mut source = drip(alloc, b"\0\0\0\x02\x07\x08", &[failing])?;
    let found = next_shown(alloc, &mut source, 6)?;
    same(found.as_bytes(), wanted)
}

#[test]
fn frames_stand_behind_another_and_reads_fail(rt: HostRuntime) -> Result<(), Fail> {
    let alloc = rt.alloc();
    stand_behind_another(alloc, &mut drip(alloc, THREE, &[])?)?;
    is_read_where(alloc, 0, b"Err(ReadFault)")?;
    is_read_where(alloc, 5, b"Err(ReadFault)")?;
    is_read_where(alloc, 6, b"Ok(Frame(ListOf { items: [7, 8] }))")
}
