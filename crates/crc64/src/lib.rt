//! CRC-64/XZ: the checksum that the xz format writes behind each block, also called CRC-64/GO-ECMA.
//! It finds each change of up to 64 bits in a row. It may let another one pass.
#![tactic(auto)]

ghost use Rattle.std.specs.Prelude.{◌≡◌, ℕ, ◌+◌, ◌*◌, ◌/◌, ◌≤◌, List, ◌++◌, take, length, IfOk};
ghost use Rattle.crc64.specs.Remainder.{reduced, remainder, after, checksum_of};
ghost use Rattle.crc64.specs.Tables.{HasRemainders};

mod combiner;
mod folding;
mod laws_of_checksums;

use byteorder::{ByteOrder, LittleEndian};
pub use combiner::Combiner;
use folding::{LEAST, TURN, fold, no_rest};
pub use laws_of_checksums::{bursts_are_found, checksums_fit, remainders_are_left};
use std::alloc::{AllocError, Global};

/// All coefficients of the generator but the highest.
const GENERATOR: u64 = 0xC96C_5795_D787_0F42;

const ONES: u64 = u64::MAX;

const TABLES: usize = 16;

const BYTES: usize = 256;

/// The tables with which checksums are computed: 32 KiB.
#[derive(Debug, Drop)]
pub struct Crc64 {
    remainders: Vec<u64>,
    ghost filled: { HasRemainders 4096 remainders.items },
}

// One step of the division.
fn reduce(register: u64) -> u64
    ensures { result ≡ reduced register }
{
    if register % 2 == 1 {
        (register >> 1) ^ GENERATOR
    } else {
        register >> 1
    }
}

// The remainder of a byte.
fn byte_remainder(byte: u64) -> u64
    ensures { result ≡ remainder 8 byte }
{
    let mut register = byte;
    for _step in 0..8u32 {
        register = reduce(register);
    }
    register
}

// The remainders of the bytes.
fn first_table(alloc: Global) -> Result<Vec<u64>, AllocError>
    ensures { IfOk result (λ table. HasRemainders 256 table.items) }
{
    let mut table = Vec::new(alloc);
    for byte in 0..BYTES {
        table.push(byte_remainder(byte as u64))?;
    }
    Ok(table)
}

impl Crc64 {
    /// Fills the tables.
    pub fn new(alloc: Global) -> Result<Crc64, AllocError> {
        let mut remainders = first_table(alloc)?;
        for place in BYTES..TABLES * BYTES {
            let shorter = remainders[place - BYTES];
            remainders.push(remainders[(shorter % 256) as usize] ^ (shorter >> 8))?;
        }
        Ok(Crc64 { remainders })
    }

    // The remainder of a word with so many zero bytes behind it.
    #[inline(always)]
    fn word_remainder(&self, behind: usize, word: u64) -> u64
        requires { behind ≤ 8 }
        ensures { result ≡ remainder (64 + 8 * behind) word }
    {
        let mut sum = 0;
        for place in 0..8usize {
            let byte = (word >> (8 * place)) % 256;
            sum ^= self.remainders[(behind + 7 - place) * BYTES + byte as usize];
        }
        sum
    }

    // After 16 bytes.
    #[inline(always)]
    fn after_block(&self, register: u64, block: &[u8]) -> u64
        requires { length block.now ≡ 16 }
        ensures { result ≡ after register block.now }
    {
        let first = register ^ LittleEndian::read_u64(block);
        let second = LittleEndian::read_u64(&block[8..]);
        // the second word is looked up first, since it doesn't wait for the register
        self.word_remainder(0, second) ^ self.word_remainder(8, first)
    }

    // After the first whole blocks of 16 bytes.
    fn after_blocks(&self, start: u64, bytes: &[u8]) -> u64
        ensures { result ≡ after start (take (length bytes.now / 16 * 16) bytes.now) }
    {
        let mut register = start;
        for number in 0..bytes.len() / 16 {
            let at = number * 16;
            register = self.after_block(register, &bytes[at..at + 16]);
        }
        register
    }

    // The register after so many zero bytes.
    fn after_zeros(&self, start: u64, count: u32) -> u64
        ensures { result ≡ remainder (8 * count) start }
    {
        let mut register = start;
        for _byte in 0..count {
            register = self.remainders[(register % 256) as usize] ^ (register >> 8);
        }
        register
    }

    fn after_each(&self, start: u64, bytes: &[u8]) -> u64
        ensures { result ≡ after start bytes.now }
    {
        let mut register = start;
        for byte in bytes {
            let low = (register ^ u64::from(*byte)) % 256;
            register = self.remainders[low as usize] ^ (register >> 8);
        }
        register
    }

    // By the tables alone.
    fn after_short(&self, start: u64, bytes: &[u8]) -> u64
        ensures { result ≡ after start bytes.now }
    {
        let whole = bytes.len() / 16 * 16;
        let register = self.after_blocks(start, bytes);
        self.after_each(register, &bytes[whole..])
    }

    // Long slices are folded, a turn at a time.
    fn after_all(&self, start: u64, bytes: &[u8]) -> u64
        ensures { result ≡ after start bytes.now }
    {
        let mut register = start;
        let mut at = 0;
        while bytes.len() - at >= LEAST {
            let turn = (bytes.len() - at).min(TURN) / 32 * 32;
            let mut rest = no_rest();
            fold(register, &bytes[at..at + turn], &mut rest);
            register = self.after_short(0, &rest);
            at += turn;
        }
        self.after_short(register, &bytes[at..])
    }

    /// The checksum of what `checksum` is the checksum of, and these bytes behind it.
    pub fn extended(&self, checksum: u64, bytes: &[u8]) -> u64
        ensures { (before : List ℕ) → checksum ≡ checksum_of before
            → result ≡ checksum_of (before ++ bytes.now) }
    {
        self.after_all(checksum ^ ONES, bytes) ^ ONES
    }

    /// The checksum of some bytes.
    pub fn checksum(&self, bytes: &[u8]) -> u64
        ensures { result ≡ checksum_of bytes.now }
    {
        self.extended(0, bytes)
    }
}
