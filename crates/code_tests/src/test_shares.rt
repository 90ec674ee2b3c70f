//! Files, and their shares.
ghost use Rattle.std.specs.Prelude.{◌≡◌, ◌<◌, [], All, vec_len};
ghost use Rattle.clay_aloof.specs.Shape.{all_chunks};

use crate::copied;
use clay_aloof::AloofGeometry;
use clay_bytes::MemSource;
use crc64::Crc64;
use file_bytes::MemFile;
use share_files::cut;
use std::alloc::Global;
use std::process::Abort;

/// A file of two stripes: at 2 + 3 with 3 helpers and subchunks of one byte a stripe has 16 bytes.
pub(crate) const FILE: &[u8] = b"a file of two stripes";

// The bytes for which a share has room, and the most that one call moves.
const ROOM: usize = 4096;

/// A file of so many bytes.
pub(crate) fn new_file(rt: &impl Abort, alloc: Global, size: usize) -> Vec<u8> {
    let mut bytes = Vec::new(alloc);
    for i in 0..size {
        let byte = ((i % 251) ^ (i / 251 % 251)) as u8;
        bytes.push(byte).expect(rt, "room");
    }
    bytes
}

/// An empty share, of which the call of the given number fails.
pub(crate) fn new_share(rt: &impl Abort, alloc: Global, failing: Option<u64>) -> MemFile
    ensures { result.put ≡ [] }
{
    let bytes = Vec::with_capacity(alloc, ROOM).expect(rt, "room");
    MemFile::new(bytes, ROOM, failing)
}

/// So many empty shares, of which the last one's call fails.
pub(crate) fn new_shares(
    rt: &impl Abort,
    alloc: Global,
    count: usize,
    failing: Option<u64>,
) -> Vec<MemFile>
    requires { 0 < count }
    ensures empty { All (λ share. share.put ≡ []) result.items }
    ensures count { vec_len result ≡ count }
{
    let mut shares = Vec::new(alloc);
    'shares: while shares.len() < count - 1 {
        shares.push(new_share(rt, alloc, None)).expect(rt, "room");
    }
    shares
        .push(new_share(rt, alloc, failing))
        .expect(rt, "room");
    shares
}

/// A source of a file, of which the read of the given number fails.
pub(crate) fn new_source(
    rt: &impl Abort,
    alloc: Global,
    file: &[u8],
    failing_read: Option<u64>,
) -> MemSource {
    let mut failing = Vec::new(alloc);
    if let Some(call) = failing_read {
        failing.push(call).expect(rt, "room");
    }
    MemSource::new(copied(rt, alloc, file), failing)
}

/// A file's shares. The last one took a write for each stripe and one for the header, and fails at the call of the given number, if any.
pub(crate) fn cut_shares(
    rt: &impl Abort,
    alloc: Global,
    crc: &Crc64,
    geometry: AloofGeometry,
    file: &[u8],
    failing: Option<u64>,
) -> Vec<MemFile>
    ensures { vec_len result ≡ all_chunks geometry }
{
    let mut source = new_source(rt, alloc, file, None);
    let mut shares = new_shares(rt, alloc, geometry.n() as usize, failing);
    let _cut = cut(alloc, crc, geometry, &mut source, &mut shares);
    shares
}
