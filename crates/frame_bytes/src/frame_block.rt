//! Bytes that wait in a block of memory, so that a sink is given few large pieces. Nothing here takes memory.
ghost use Rattle.std.specs.Prelude.{◌≡◌, ◌≤◌, ◌+◌, ◌↔◌, ◌++◌, ◌∷◌, [], length, vec_len, vec_capacity, IsTrue};
ghost use Rattle.byteorder.specs.Endian.{big_bytes};
ghost use Rattle.frame_bytes.specs.Writing.{Puts};

use byteorder::{BigEndian, ByteOrder};
use clay_bytes::{Sink, WriteFault, write_all};

// Whether a piece of so many bytes can wait in the block.
fn has_room(block: &Vec<u8>, len: usize) -> bool
    ensures { IsTrue result ↔ (vec_len block.now + len ≤ vec_capacity block.now) }
{
    len <= block.capacity() && block.len() <= block.capacity() - len
}

fn keep(block: &mut Vec<u8>, piece: &[u8])
    requires { vec_len block.old + length piece.now ≤ vec_capacity block.old }
    ensures { block.new.items ≡ block.old.items ++ piece.now }
{
    match block.extend_from_slice(piece) {
        Ok(()) => {}
        Err(_) => unreachable!(),
    }
}

/// Puts a piece behind the bytes that wait. Where the block has no room for it, those and the piece are written.
pub(crate) fn put<K: Sink>(
    sink: &mut K,
    block: &mut Vec<u8>,
    piece: &[u8],
) -> Result<(), WriteFault>
    ensures { Puts K.accepted K.written K.faults sink.old sink.new block.old.items block.new.items piece.now result }
{
    if has_room(block, piece.len()) {
        keep(block, piece);
        return Ok(());
    }
    write_all(sink, block)?;
    block.clear();
    write_all(sink, piece)
}

/// Puts one byte.
pub(crate) fn put_byte<K: Sink>(
    sink: &mut K,
    block: &mut Vec<u8>,
    byte: u8,
) -> Result<(), WriteFault>
    ensures { Puts K.accepted K.written K.faults sink.old sink.new block.old.items block.new.items (byte ∷ []) result }
{
    put(sink, block, &[byte])
}

/// Puts a number in eight bytes.
pub(crate) fn put_u64<K: Sink>(
    sink: &mut K,
    block: &mut Vec<u8>,
    number: u64,
) -> Result<(), WriteFault>
    ensures { Puts K.accepted K.written K.faults sink.old sink.new block.old.items block.new.items (big_bytes 8 number) result }
{
    let mut piece = [0u8; 8];
    BigEndian::write_u64(&mut piece, number);
    put(sink, block, &piece)
}

/// Puts the lowest four bytes of a number.
pub(crate) fn put_u32<K: Sink>(
    sink: &mut K,
    block: &mut Vec<u8>,
    number: u64,
) -> Result<(), WriteFault>
    ensures { Puts K.accepted K.written K.faults sink.old sink.new block.old.items block.new.items (big_bytes 4 number) result }
{
    let mut piece = [0u8; 8];
    BigEndian::write_u64(&mut piece, number);
    put(sink, block, &piece[4..])
}
