//! The checksum of two pieces, one behind the other, from the checksum of each.
ghost use Rattle.std.specs.Prelude.{◌≡◌, ℕ, ◌+◌, ◌*◌, List, ◌++◌, length, IfOk};
ghost use Rattle.crc64.specs.Remainder.{remainder, checksum_of};
ghost use Rattle.crc64.specs.Tables.{HasRegisters};

use crate::{BYTES, Crc64};
use std::alloc::{AllocError, Global};
use std::marker::Model;

// The bytes of a register.
const WIDTH: usize = 8;

/// Combines the checksums of two pieces of which the second has a fixed length. It has tables of 16 KiB.
#[derive(Debug, Drop)]
pub struct Combiner {
    length: u32,
    registers: Vec<u64>,
}

impl Model for Combiner {
    ghost use Rattle.std.specs.Prelude.{ℕ, ◌*◌};
    ghost use Rattle.crc64.specs.Tables.{HasRegisters};

    ghost Value = { ℕ };

    ghost view = { λ c. c.length };

    ghost invariant = { λ c. HasRegisters (8 * c.length) 2048 c.registers.items };
}

// The register after as many zeros as the tables are for.
fn register_after(registers: &[u64], start: u64) -> u64
    requires { length registers.now ≡ 2048 }
    ensures { (zeros : ℕ) → HasRegisters zeros 2048 registers.now → result ≡ remainder zeros start }
{
    let mut sum = 0;
    for place in 0..WIDTH {
        let byte = (start >> (8 * place)) % 256;
        sum ^= registers[place * BYTES + byte as usize];
    }
    sum
}

// The tables for no zeros.
fn first_registers(alloc: Global) -> Result<Vec<u64>, AllocError>
    ensures { IfOk result (λ table. HasRegisters 0 2048 table.items) }
{
    let mut table = Vec::with_capacity(alloc, WIDTH * BYTES)?;
    for place in 0..WIDTH * BYTES {
        table.push(((place % BYTES) as u64) << (8 * (place / BYTES)))?;
    }
    Ok(table)
}

// The tables for twice as many zeros, and some zero bytes more.
fn doubled(alloc: Global, crc: &Crc64, registers: &[u64], more: u32) -> Result<Vec<u64>, AllocError>
    requires { length registers.now ≡ 2048 }
    ensures { IfOk result (λ table. (zeros : ℕ) → HasRegisters zeros 2048 registers.now
        → HasRegisters (zeros + zeros + 8 * more) 2048 table.items) }
{
    let mut table = Vec::with_capacity(alloc, registers.len())?;
    for register in registers {
        let twice = register_after(registers, *register);
        table.push(crc.after_zeros(twice, more))?;
    }
    Ok(table)
}

// The tables for so many zero bytes, by the bits of their number, the highest first.
fn zero_bytes(alloc: Global, crc: &Crc64, length: u32) -> Result<Vec<u64>, AllocError>
    ensures { IfOk result (λ table. HasRegisters (8 * length) 2048 table.items) }
{
    let mut table = first_registers(alloc)?;
    for bit in (0..u32::BITS).rev() {
        table = doubled(alloc, crc, &table, (length >> bit) % 2)?;
    }
    Ok(table)
}

impl Combiner {
    /// For second pieces of `length` bytes.
    pub fn new(alloc: Global, crc: &Crc64, length: u32) -> Result<Combiner, AllocError>
        ensures { IfOk result (λ combiner. combiner ≡ length) }
    {
        let registers = zero_bytes(alloc, crc, length)?;
        Ok(Combiner { length, registers })
    }

    /// The checksum of two pieces from the checksum of each.
    pub fn combined(&self, first: u64, second: u64) -> u64
        ensures { (before behind : List ℕ) → length behind ≡ self.now
            → first ≡ checksum_of before → second ≡ checksum_of behind → result ≡ checksum_of (before ++ behind) }
    {
        register_after(&self.registers, first) ^ second
    }
}
