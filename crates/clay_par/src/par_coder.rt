//! The coder of several threads.
ghost use Rattle.std.specs.Prelude.{◌≡◌, ◌*◌, ◌↔◌, length, OnOk, OnErr, IsErrOf};
ghost use Rattle.clay_grid.specs.Shape.{chunk_count, chunk_length, stripe_length};
ghost use Rattle.clay_model.specs.Left.{AreLong, AreTooFew};
ghost use Rattle.clay_parity.specs.Flat.{IsParity};
ghost use Rattle.clay_lanes.specs.Places.{AreFilled};

use crate::parity::{encode, parity_into};
use crate::shared_chunks::{missing_into, recover};
use clay_grid::Geometry;
use clay_lanes::LaneCoder;
use clay_model::{Coder, DecodeFault};
use std::alloc::{AllocError, Global};
use std::thread::Threads;

// The bytes of a stripe that are worth more than one thread, as measured: to start threads and to join them took half a millisecond.
const ENCODED_BY_THREADS: u32 = 1_000_000;

const RECOVERED_BY_THREADS: u32 = 8_000_000;

/// Encodes and recovers in as many threads as there are processors where the stripe is large enough, else as the fast coder in the thread of
/// its caller, in which it always rebuilds. Its chunks are those of `PlainCoder`.
#[derive(Clone, Copy, Debug, PartialEq, Eq)]
pub struct ParCoder;

impl Coder for ParCoder {
    fn encode<R: Threads + Sync>(
        &self,
        rt: &R,
        alloc: Global,
        g: Geometry,
        stripe: &[u8],
    ) -> Result<Vec<Vec<u8>>, AllocError> {
        if g.stripe_len() < ENCODED_BY_THREADS {
            LaneCoder.encode(rt, alloc, g, stripe)
        } else {
            encode(rt, alloc, g, stripe)
        }
    }

    fn recover<R: Threads + Sync>(
        &self,
        rt: &R,
        alloc: Global,
        g: Geometry,
        have: &[Option<Vec<u8>>],
    ) -> Result<Vec<Vec<u8>>, AllocError> {
        if g.stripe_len() < RECOVERED_BY_THREADS {
            LaneCoder.recover(rt, alloc, g, have)
        } else {
            recover(rt, alloc, g, have)
        }
    }

    fn rebuild<R: Threads + Sync>(
        &self,
        rt: &R,
        alloc: Global,
        g: Geometry,
        lost: u32,
        parts: &[Option<Vec<u8>>],
    ) -> Result<Vec<u8>, AllocError> {
        LaneCoder.rebuild(rt, alloc, g, lost, parts)
    }
}

impl ParCoder {
    /// Writes the parity chunks of the stripe's codeword, by rising row, one behind another. `chunks` has room for just them; what it held
    /// before doesn't matter, and it stays as it is where memory is wanting.
    pub fn parity_into<R: Threads + Sync>(
        &self,
        rt: &R,
        alloc: Global,
        g: Geometry,
        stripe: &[u8],
        chunks: &mut [u8],
    ) -> Result<(), AllocError>
        requires stripe { length stripe.now ≡ stripe_length g }
        requires chunks { length chunks.old ≡ g.parity_count * chunk_length g }
        ensures parity { OnOk result (IsParity g stripe.now chunks.new) }
        ensures kept { OnErr result (chunks.new ≡ chunks.old) }
    {
        if g.stripe_len() < ENCODED_BY_THREADS {
            clay_lanes::parity_into(alloc, g, stripe, chunks)
        } else {
            parity_into(rt, alloc, g, stripe, chunks)
        }
    }

    /// Writes the missing chunks of the codeword that agrees with the chunks that are there, where one does, to their places among all
    /// chunks, which stand one behind another.
    ///
    /// `have` has an entry for each chunk, `None` for a missing one. Where no codeword agrees, some bytes are written. What stood in the
    /// places of the missing ones doesn't matter; all other bytes stay, and after an error all.
    pub fn missing_into<R: Threads + Sync>(
        &self,
        rt: &R,
        alloc: Global,
        g: Geometry,
        have: &[Option<Vec<u8>>],
        chunks: &mut [u8],
    ) -> Result<(), DecodeFault>
        requires count { length have.now ≡ chunk_count g }
        requires lengths { AreLong (chunk_length g) have.now }
        requires chunks_len { length chunks.old ≡ chunk_count g * chunk_length g }
        ensures too_few { IsErrOf result DecodeFault.TooFew ↔ AreTooFew g have.now }
        ensures filled { OnOk result (AreFilled g have.now chunks.old chunks.new) }
        ensures kept { OnErr result (chunks.new ≡ chunks.old) }
    {
        if g.stripe_len() < RECOVERED_BY_THREADS {
            clay_lanes::missing_into(alloc, g, have, chunks)
        } else {
            missing_into(rt, alloc, g, have, chunks)
        }
    }
}
