//! The coder of one thread.
use crate::plain_lost::rebuild;
use clay_decode::decode;
use clay_grid::Geometry;
use clay_model::{Coder, DecodeFault};
use std::alloc::{AllocError, Global};
use std::thread::Threads;

/// Codes in the thread of its caller.
#[derive(Clone, Copy, Debug, PartialEq, Eq)]
pub struct PlainCoder;

impl Coder for PlainCoder {
    fn encode<R: Threads + Sync>(
        &self,
        _rt: &R,
        alloc: Global,
        g: Geometry,
        stripe: &[u8],
    ) -> Result<Vec<Vec<u8>>, AllocError> {
        clay_encode::encode(alloc, g, stripe)
    }

    fn recover<R: Threads + Sync>(
        &self,
        _rt: &R,
        alloc: Global,
        g: Geometry,
        have: &[Option<Vec<u8>>],
    ) -> Result<Vec<Vec<u8>>, AllocError> {
        match decode(alloc, g, have) {
            Ok(chunks) => Ok(chunks),
            Err(DecodeFault::OutOfMemory) => Err(AllocError),
            Err(DecodeFault::TooFew) => unreachable!(),
        }
    }

    fn rebuild<R: Threads + Sync>(
        &self,
        _rt: &R,
        alloc: Global,
        g: Geometry,
        lost: u32,
        parts: &[Option<Vec<u8>>],
    ) -> Result<Vec<u8>, AllocError> {
        rebuild(alloc, g, lost, parts)
    }
}
