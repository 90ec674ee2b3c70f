//! A file in memory, which takes no memory by itself, and one of whose calls fails.
ghost use Rattle.std.specs.Prelude.{◌≡◌, ◌≤◌, ◌<◌, ◌+◌, ◌-◌, ◌++◌, ◌∷◌, ◌↔◌, ◌⊎◌, [], Some, length, take, drop, replicate, vec_len, vec_capacity, IfOk, OnOk, OnErr, IsErr, IsTrue, is_err};
ghost use Rattle.clay_bytes.specs.Memory.{next_count, count_if};
ghost use Rattle.file_bytes.specs.Places.{placed_from, ends_after, Shows};
ghost use Rattle.file_bytes.specs.Laid.{laid_at};

use crate::position_logs::{PlaceLog, PositionLog};
use crate::{SinkAt, SourceAt};
use clay_bytes::Failed;
use std::marker::Model;

// The number of the call that fails, counted from 0, and how many calls were made and failed.
#[derive(Drop)]
struct FailingCall {
    failing: Option<u64>,
    calls: u64,
    faults: u64,
}

impl FailingCall {
    // Counts one more call, and says whether it fails: the listed one does, and each for which the file has no room.
    fn next_fails(&mut self, full: bool) -> bool
        ensures fails { IsTrue result ↔ (IsTrue full ⊎ (self.old.failing ≡ Some self.old.calls)) }
        ensures same { self.new.failing ≡ self.old.failing }
        ensures calls { self.new.calls ≡ next_count self.old.calls }
        ensures faults { self.new.faults ≡ count_if result self.old.faults }
        ensures count { self.old.faults ≤ self.new.faults }
    {
        let fails = full || self.failing == Some(self.calls);
        self.calls = self.calls.saturating_add(1);
        if fails {
            self.faults = self.faults.saturating_add(1);
        }
        fails
    }
}

/// The bytes of a vector as a file. It grows as far as the vector that it was made with has room: a write past that fails.
#[derive(Drop)]
pub struct MemFile {
    bytes: Vec<u8>,
    room: usize,
    most: usize,
    calls: FailingCall,
    given: PlaceLog,
    ends: PositionLog,
    failed: PositionLog,
    put: PlaceLog,
}

impl Model for MemFile {
    ghost use Rattle.std.specs.Prelude.{◌≤◌, ◌<◌, vec_len, vec_capacity};
    ghost use Rattle.file_bytes.specs.Memory.{MemState};

    ghost Value = { MemState };

    ghost view = { λ s. record {
      bytes = s.bytes.items;
      room = s.room;
      most = s.most;
      failing = s.calls.failing;
      calls = s.calls.calls;
      faults = s.calls.faults;
      given = s.given;
      ends = s.ends;
      failed = s.failed;
      put = s.put;
    } };

    ghost invariant = { λ s. (s.room ≤ vec_capacity s.bytes) × (vec_len s.bytes ≤ s.room) × (0 < s.most) };
}

impl MemFile {
    /// A file of these bytes. A call moves at most `most` bytes, and the call of the number `failing`, counted from 0, fails.
    pub fn new(bytes: Vec<u8>, most: usize, failing: Option<u64>) -> Self
        requires { 0 < most }
        ensures { result ≡ record { bytes = bytes.items; room = vec_capacity bytes; most = most; failing = failing; calls = 0; faults = 0; given = []; ends = []; failed = []; put = [] } }
    {
        let room = bytes.capacity();
        MemFile {
            bytes,
            room,
            most,
            calls: FailingCall {
                failing,
                calls: 0,
                faults: 0,
            },
            given: PlaceLog::new(),
            ends: PositionLog::new(),
            failed: PositionLog::new(),
            put: PlaceLog::new(),
        }
    }

    /// Its bytes.
    pub fn bytes(&self) -> &[u8]
        ensures { result.now ≡ self.now.bytes }
    {
        &self.bytes
    }
}

// Takes bytes from a position on into the front of the buffer, at most so many, and says how many.
fn copy_from(bytes: &[u8], at: u64, most: usize, buf: &mut [u8]) -> usize
    requires some { 0 < most }
    requires room { 0 < length buf.old }
    ensures within { result ≤ length buf.new }
    ensures copied { take result buf.new ≡ take result (drop at bytes.now) }
    ensures inside { 0 < result → at + result ≤ length bytes.now }
    ensures end { result ≡ 0 → length bytes.now ≤ at }
{
    if at >= bytes.len() as u64 {
        return 0;
    }
    let place = at as usize;
    let n = buf.len().min(bytes.len() - place).min(most);
    buf[..n].copy_from_slice(&bytes[place..place + n]);
    n
}

impl SourceAt for MemFile {
    ghost given = { λ s. s.given };

    ghost ends = { λ s. s.ends };

    ghost failed = { λ s. s.failed };

    fn read_at(&mut self, at: u64, buf: &mut [u8]) -> Result<usize, Failed>
        requires { 0 < length buf.old }
        ensures bound { IfOk result (λ n. n ≤ length buf.new) }
        ensures hands_out { IfOk result (λ n. self.new.given ≡ self.old.given ++ placed_from at (take n buf.new)) }
        ensures tells_end { IfOk result (λ n. self.new.ends ≡ ends_after self.old.ends at n) }
        ensures unheard { OnErr result ((self.new.given ≡ self.old.given) × (self.new.ends ≡ self.old.ends)) }
        ensures fails { OnErr result (self.new.failed ≡ self.old.failed ++ (at ∷ [])) }
        ensures steady { OnOk result (self.new.failed ≡ self.old.failed) }
        // Where what it handed out and told before is of its bytes, so is what it does now.
        ensures shows { Shows self.old.bytes self.old.given self.old.ends → Shows self.new.bytes self.new.given self.new.ends }
        ensures failing { IsErr result ↔ (self.old.failing ≡ Some self.old.calls) }
        ensures same { (self.new.bytes ≡ self.old.bytes) × (self.new.failing ≡ self.old.failing) × (self.new.put ≡ self.old.put) }
        ensures calls { self.new.calls ≡ next_count self.old.calls }
        ensures faults { self.new.faults ≡ count_if (is_err result) self.old.faults }
    {
        if self.calls.next_fails(false) {
            self.failed.add(at);
            return Err(Failed);
        }
        let n = copy_from(&self.bytes, at, self.most, buf);
        self.given.add(at, buf, n);
        self.ends.add_end(at, n);
        Ok(n)
    }
}

// Fills a vector up with zeros to so many bytes.
fn fill_up(bytes: &mut Vec<u8>, size: usize)
    requires { size ≤ vec_capacity bytes.old }
    ensures filled { bytes.new.items ≡ bytes.old.items ++ replicate (size - length bytes.old.items) 0 }
    ensures room { vec_capacity bytes.new ≡ vec_capacity bytes.old }
{
    'zeros: while bytes.len() < size {
        bytes.push_reserved(0);
    }
}

// Lays a piece over the bytes of a vector from a place on.
fn lay(bytes: &mut Vec<u8>, place: usize, piece: &[u8])
    requires { place + length piece.now ≤ vec_capacity bytes.old }
    ensures laid { bytes.new.items ≡ laid_at place piece.now bytes.old.items }
    ensures room { vec_capacity bytes.new ≡ vec_capacity bytes.old }
{
    fill_up(bytes, place + piece.len());
    bytes[place..place + piece.len()].copy_from_slice(piece);
}

impl SinkAt for MemFile {
    ghost put = { λ s. s.put };

    ghost faults = { λ s. s.faults };

    fn write_at(&mut self, at: u64, piece: &[u8]) -> Result<usize, Failed>
        requires { 0 < length piece.now }
        ensures bound { IfOk result (λ n. n ≤ length piece.now) }
        ensures some { IfOk result (λ n. 0 < n) }
        ensures takes { IfOk result (λ n. self.new.put ≡ self.old.put ++ placed_from at (take n piece.now)) }
        ensures unheard { OnErr result (self.new.put ≡ self.old.put) }
        // What it takes is laid over its bytes.
        ensures laid { IfOk result (λ n. self.new.bytes ≡ laid_at at (take n piece.now) self.old.bytes) }
        ensures unchanged { OnErr result (self.new.bytes ≡ self.old.bytes) }
        ensures failing { IsErr result ↔ ((self.old.room ≤ at) ⊎ (self.old.failing ≡ Some self.old.calls)) }
        ensures same { (self.new.room ≡ self.old.room) × (self.new.failing ≡ self.old.failing) }
        ensures calls { self.new.calls ≡ next_count self.old.calls }
        ensures faults { self.new.faults ≡ count_if (is_err result) self.old.faults }
        ensures count { self.old.faults ≤ self.new.faults }
    {
        if self.calls.next_fails(at >= self.room as u64) {
            return Err(Failed);
        }
        let place = at as usize;
        let n = piece.len().min(self.room - place).min(self.most);
        lay(&mut self.bytes, place, &piece[..n]);
        self.put.add(at, piece, n);
        Ok(n)
    }
}
