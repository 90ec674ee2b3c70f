//! The coder of a command: one type for both, so that the commands stand in the program once.
use clay_grid::Geometry;
use clay_lanes::LaneCoder;
use clay_model::Coder;
use clay_par::ParCoder;
use std::alloc::{AllocError, Global};
use std::thread::Threads;

/// Which coder codes a command's stripes.
#[derive(Clone, Copy)]
pub enum CommandCoder {
    OneThread,
    ManyThreads,
}

impl Coder for CommandCoder {
    fn encode<R: Threads + Sync>(
        &self,
        rt: &R,
        alloc: Global,
        g: Geometry,
        stripe: &[u8],
    ) -> Result<Vec<Vec<u8>>, AllocError> {
        match self {
            CommandCoder::OneThread => LaneCoder.encode(rt, alloc, g, stripe),
            CommandCoder::ManyThreads => ParCoder.encode(rt, alloc, g, stripe),
        }
    }

    fn recover<R: Threads + Sync>(
        &self,
        rt: &R,
        alloc: Global,
        g: Geometry,
        have: &[Option<Vec<u8>>],
    ) -> Result<Vec<Vec<u8>>, AllocError> {
        match self {
            CommandCoder::OneThread => LaneCoder.recover(rt, alloc, g, have),
            CommandCoder::ManyThreads => ParCoder.recover(rt, alloc, g, have),
        }
    }

    fn rebuild<R: Threads + Sync>(
        &self,
        rt: &R,
        alloc: Global,
        g: Geometry,
        lost: u32,
        parts: &[Option<Vec<u8>>],
    ) -> Result<Vec<u8>, AllocError> {
        match self {
            CommandCoder::OneThread => LaneCoder.rebuild(rt, alloc, g, lost, parts),
            CommandCoder::ManyThreads => ParCoder.rebuild(rt, alloc, g, lost, parts),
        }
    }
}
