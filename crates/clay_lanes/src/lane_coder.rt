//! The fast coder of one thread.
use crate::block_chunks::recover;
use clay_grid::Geometry;
use clay_model::Coder;
use clay_parity::encode;
use lane_repair::rebuild;
use std::alloc::{AllocError, Global};
use std::thread::Threads;

/// Codes in the thread of its caller, by products 32 and 16 bytes at a time. Its chunks are those of `PlainCoder`.
#[derive(Clone, Copy, Debug, PartialEq, Eq)]
pub struct LaneCoder;

impl Coder for LaneCoder {
    fn encode<R: Threads + Sync>(
        &self,
        _rt: &R,
        alloc: Global,
        g: Geometry,
        stripe: &[u8],
    ) -> Result<Vec<Vec<u8>>, AllocError> {
        encode(alloc, g, stripe)
    }

    fn recover<R: Threads + Sync>(
        &self,
        _rt: &R,
        alloc: Global,
        g: Geometry,
        have: &[Option<Vec<u8>>],
    ) -> Result<Vec<Vec<u8>>, AllocError> {
        recover(alloc, g, have)
    }

    fn rebuild<R: Threads + Sync>(
        &self,
        _rt: &R,
        alloc: Global,
        g: Geometry,
        lost: u32,
        parts: &[Option<Vec<u8>>],
    ) -> Result<Vec<u8>, AllocError> {
        rebuild(alloc, g, lost, parts)
    }
}
