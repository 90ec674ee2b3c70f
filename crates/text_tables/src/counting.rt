//! A coder that counts what it is asked for.
use clay_grid::Geometry;
use clay_model::Coder;
use std::alloc::{AllocError, Global};
use std::sync::atomic::{AtomicU64, Ordering};
use std::thread::Threads;

/// Hands each call on to another coder, and counts the calls of each kind.
#[derive(Drop)]
pub struct Counting<C: Coder> {
    coder: C,
    encodes: AtomicU64,
    recovers: AtomicU64,
    rebuilds: AtomicU64,
}

impl<C: Coder> Counting<C> {
    /// Has counted nothing.
    pub fn new(coder: C) -> Self {
        Counting {
            coder,
            encodes: AtomicU64::new(0),
            recovers: AtomicU64::new(0),
            rebuilds: AtomicU64::new(0),
        }
    }

    /// How often it was asked to encode.
    pub fn encodes(&self) -> u64 {
        self.encodes.load(Ordering::SeqCst)
    }

    /// How often it was asked to recover.
    pub fn recovers(&self) -> u64 {
        self.recovers.load(Ordering::SeqCst)
    }

    /// How often it was asked to rebuild.
    pub fn rebuilds(&self) -> u64 {
        self.rebuilds.load(Ordering::SeqCst)
    }
}

impl<C: Coder> Coder for Counting<C> {
    fn encode<R: Threads + Sync>(
        &self,
        rt: &R,
        alloc: Global,
        g: Geometry,
        stripe: &[u8],
    ) -> Result<Vec<Vec<u8>>, AllocError> {
        self.encodes.fetch_add(1, Ordering::SeqCst);
        self.coder.encode(rt, alloc, g, stripe)
    }

    fn recover<R: Threads + Sync>(
        &self,
        rt: &R,
        alloc: Global,
        g: Geometry,
        have: &[Option<Vec<u8>>],
    ) -> Result<Vec<Vec<u8>>, AllocError> {
        self.recovers.fetch_add(1, Ordering::SeqCst);
        self.coder.recover(rt, alloc, g, have)
    }

    fn rebuild<R: Threads + Sync>(
        &self,
        rt: &R,
        alloc: Global,
        g: Geometry,
        lost: u32,
        parts: &[Option<Vec<u8>>],
    ) -> Result<Vec<u8>, AllocError> {
        self.rebuilds.fetch_add(1, Ordering::SeqCst);
        self.coder.rebuild(rt, alloc, g, lost, parts)
    }
}
