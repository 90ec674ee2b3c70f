//! The calls that are made.

use dir_walks::test_caller::Refusal;
use std::alloc::Global;
use store_map::{Call, Content, Name};

/// The bytes of a stripe.
const STRIPE_LEN: u32 = 8;

/// What a call does.
#[derive(Clone, Copy)]
pub enum BenchCall {
    /// It puts so many stripes.
    Put,
    /// It writes over the stripe that so many are before.
    Write,
    /// It reads that stripe.
    Read,
    Stat,
    Delete,
}

/// A call of the object with this number.
#[derive(Clone, Copy)]
pub struct Wanted {
    pub kind: BenchCall,
    pub object: u32,
    pub stripes: u32,
}

// So many bytes.
fn content(length: u32) -> Content {
    Content::Fill { byte: 5, length }
}

// The name of the object with this number.
fn name(alloc: Global, object: u32) -> Result<Name, Refusal> {
    let text = format!(in alloc; "o{object}")?;
    match Name::new(alloc, &text) {
        Ok(name) => Ok(name),
        Err(_) => Err(Refusal::Short),
    }
}

/// The call that is wanted.
pub fn call(alloc: Global, wanted: Wanted) -> Result<Call, Refusal> {
    let name = name(alloc, wanted.object)?;
    let offset = wanted.stripes.saturating_mul(STRIPE_LEN);
    Ok(match wanted.kind {
        BenchCall::Put => Call::Put {
            name,
            content: content(offset),
        },
        BenchCall::Write => Call::Write {
            name,
            offset,
            content: content(STRIPE_LEN),
        },
        BenchCall::Read => Call::ReadAt {
            name,
            offset,
            length: STRIPE_LEN,
        },
        BenchCall::Stat => Call::Stat { name },
        BenchCall::Delete => Call::Delete { name },
    })
}
