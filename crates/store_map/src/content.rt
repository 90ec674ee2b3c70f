//! The data of puts and writes: written out, one byte many times, or bytes that count up.
ghost use Rattle.std.specs.Prelude.{◌≡◌, ◌<◌, ◌^◌, length, IfOk, bytes_eq};
ghost use Rattle.std.specs.Cmp.{partial_equiv_from_equiv};
ghost use Rattle.std.specs.Cmp.Lexicographic.{nat_list_eq_equiv};
ghost use Rattle.store_map.specs.Content.{ramp_of};

use std::alloc::{AllocError, Global};
use std::marker::Model;

/// Bytes that were written out digit by digit, at most 4,294,967,295 of them.
#[derive(Debug)]
pub struct HexBytes {
    bytes: Vec<u8>,
}

// By hand, since a derived one is proved again in each crate that drops the type.
impl Drop for HexBytes {
    fn drop(self) {
        let HexBytes { bytes: _bytes } = self;
    }
}

impl Model for HexBytes {
    ghost use Rattle.std.specs.Prelude.{ℕ, List, ◌<◌, ◌^◌, length};

    ghost Value = { List ℕ };

    ghost view = { λ a. a.bytes.items };

    ghost invariant = { λ a. length a.bytes.items < 2 ^ 32 };
}

impl PartialEq for HexBytes {
    ghost eq = { bytes_eq };

    ghost laws = { partial_equiv_from_equiv nat_list_eq_equiv };

    fn eq(&self, other: &HexBytes) -> bool {
        self.bytes.as_slice() == other.bytes.as_slice()
    }
}

impl Eq for HexBytes {
    ghost laws = { nat_list_eq_equiv };
}

impl HexBytes {
    /// The bytes of a vector, in its memory.
    pub fn from_vec(bytes: Vec<u8>) -> Self
        requires { length bytes.items < 2 ^ 32 }
        ensures { result ≡ bytes.items }
    {
        HexBytes { bytes }
    }

    pub fn as_slice(&self) -> &[u8]
        ensures bytes { result.now ≡ self.now }
        ensures within { length self.now < 2 ^ 32 }
    {
        self.bytes.as_slice()
    }

    /// The same bytes in memory of their own.
    pub fn copy(&self) -> Result<HexBytes, AllocError>
        ensures { IfOk result (λ bytes. bytes ≡ self.now) }
    {
        let bytes = self.bytes.clone()?;
        Ok(HexBytes { bytes })
    }
}

/// The bytes that a put or a write carries, as a script spells them.
#[derive(PartialEq, Eq, Debug, Drop)]
pub enum Content {
    /// These bytes.
    Hex(HexBytes),
    /// One byte, `length` times.
    Fill { byte: u8, length: u32 },
    /// `length` bytes that count up from `first`, modulo 256.
    Ramp { first: u8, length: u32 },
}

impl Content {
    ghost use Rattle.store_map.specs.Content.{content_bytes, content_length};

    /// How many bytes these are.
    pub fn length(&self) -> u32
        ensures number { result ≡ content_length self.now }
        ensures of_bytes { result ≡ length (content_bytes self.now) }
    {
        match self {
            Content::Hex(bytes) => bytes.as_slice().len() as u32,
            Content::Fill { length, .. } => *length,
            Content::Ramp { length, .. } => *length,
        }
    }

    /// The same content in memory of its own.
    pub fn copy(&self) -> Result<Content, AllocError>
        ensures { IfOk result (λ content. content ≡ self.now) }
    {
        Ok(match self {
            Content::Hex(bytes) => Content::Hex(bytes.copy()?),
            Content::Fill { byte, length } => Content::Fill {
                byte: *byte,
                length: *length,
            },
            Content::Ramp { first, length } => Content::Ramp {
                first: *first,
                length: *length,
            },
        })
    }

    /// The bytes themselves.
    pub fn bytes(&self, alloc: Global) -> Result<Vec<u8>, AllocError>
        ensures { IfOk result (λ bytes. bytes.items ≡ content_bytes self.now) }
    {
        match self {
            Content::Hex(bytes) => Vec::from_slice(alloc, bytes.as_slice()),
            Content::Fill { byte, length } => vec![in alloc; *byte; *length as usize],
            Content::Ramp { first, length } => ramp(alloc, *first, *length),
        }
    }
}

fn ramp(alloc: Global, first: u8, length: u32) -> Result<Vec<u8>, AllocError>
    ensures { IfOk result (λ bytes. bytes.items ≡ ramp_of first length) }
{
    let mut bytes = vec![in alloc; first; length as usize]?;
    count_up(&mut bytes, first);
    Ok(bytes)
}

fn count_up(bytes: &mut [u8], first: u8)
    ensures { bytes.new ≡ ramp_of first (length bytes.old) }
{
    let mut next = first;
    for byte in bytes.iter_mut() {
        *byte = next;
        next = next.wrapping_add(1);
    }
}
