//! A server with the sealed chunks that it holds, and each of its calls.
ghost use Rattle.std.specs.Prelude.{◌≡◌, ◌≤◌, ◌<◌, ◌↔◌, ◌&&◌, not, false, slice_get, IsNone, IsTrue, IsFalse, length, map, All, IfOk, OnOk, OnErr, is_err};
ghost use Rattle.std.specs.Option.{option_map};
ghost use Rattle.std.specs.BTreeMap.{values};
ghost use Rattle.clay_grid.specs.Shape.{layer_count};
ghost use Rattle.store_core.specs.Told.{Told};
ghost use Rattle.store_core.specs.Act.{ServerStep};
ghost use Rattle.store_core.specs.Server.{at_server};
ghost use Rattle.chunk_server.specs.State.{empty_server, is_held, found_at};
ghost use Rattle.chunk_server.specs.Valid.{MayCome, IsValid, GivesPart};
ghost use Rattle.chunk_server.specs.Steps.{after_adding, prepare_of, after_settle, presence_of, fetch_of, install_of, after_discard, after_wipe, after_down, after_up};
ghost use Rattle.chunk_server.specs.Core.{core_of, told_prepared, told_presence, told_fetched, told_installed};

use crate::server_answers::{Fetched, Installed, Presence};
use clay_grid::Geometry;
use std::alloc::{AllocError, Global};
use std::collections::BTreeMap;
use std::marker::Model;
use store_map::{Found, Placement, Version};
use version_seal::{Opening, SealedChunk, Stamp};

/// Whether the call that put a chunk has committed.
#[derive(Clone, Copy, PartialEq, Eq)]
pub enum Mark {
    /// It hasn't, as far as the server was told.
    Prepared,
    /// It has, or the chunk was installed for a version that was committed before.
    Settled,
}

// What is held of a version.
#[derive(Drop)]
struct HeldChunk {
    mark: Mark,
    chunk: SealedChunk,
}

/// One chunk server: chunks of one book's versions of stripes, in memory. Each is sealed as this
/// server's chunk of its version. A chunk that comes is moved in. A call takes a time that is
/// logarithmic in the chunks held, a fetch that of its bytes beside it, and a wipe the time to free
/// what was held.
pub struct Server {
    number: u32,
    opening: Opening,
    epoch: u64,
    taken: u64,
    downs: u64,
    away: bool,
    held: BTreeMap<Version, HeldChunk>,
}

// By hand, since a derived one is proved again in each crate that drops the type.
impl Drop for Server {
    fn drop(self) {
        let Server {
            number: _number,
            opening: _opening,
            epoch: _epoch,
            taken: _taken,
            downs: _downs,
            away: _away,
            held: _held,
        } = self;
    }
}

impl Model for Server {
    ghost use Rattle.chunk_server.specs.State.{ServerState};

    ghost Value = { ServerState };

    ghost use Rattle.chunk_server.specs.Valid.{IsValid};
    ghost use Rattle.chunk_server.specs.Chunks.{state_in};

    ghost view = { state_in };

    ghost invariant = { λ a. IsValid (state_in a) };
}

impl Server {
    /// An empty server of this book's stripes, the `number`th from 0.
    pub fn new(alloc: Global, number: u32, opening: Opening) -> Server
        ensures { result ≡ empty_server number opening }
    {
        Server {
            number,
            opening,
            epoch: 0,
            taken: 0,
            downs: 0,
            away: false,
            held: BTreeMap::new(alloc),
        }
    }

    /// Which of a stripe's servers this is, from 0.
    pub fn number(&self) -> u32
        ensures { result ≡ self.now.number }
    {
        self.number
    }

    /// The code whose chunks it holds, which is its book's.
    pub fn geometry(&self) -> Geometry
        ensures { result ≡ self.now.book.geometry }
    {
        self.opening.geometry()
    }

    /// How often the server was emptied.
    pub fn epoch(&self) -> u64
        ensures { result ≡ self.now.epoch }
    {
        self.epoch
    }

    /// How many subchunks were taken from the server.
    pub fn taken(&self) -> u64
        ensures { result ≡ self.now.taken }
    {
        self.taken
    }

    /// How often the server was made away.
    pub fn downs(&self) -> u64
        ensures { result ≡ self.now.downs }
    {
        self.downs
    }

    /// Whether the server is away.
    pub fn away(&self) -> bool
        ensures { result ≡ self.now.away }
    {
        self.away
    }

    /// How many chunks the server holds.
    pub fn held(&self) -> usize
        ensures count { result ≡ length self.now.held }
        ensures valid { IsValid self.now }
    {
        self.held.len()
    }

    /// The stamp of the `index`th chunk that it holds, from 0, in the order of their versions. It
    /// goes over those before.
    pub fn stamp_at(&self, index: usize) -> Option<&Stamp>
        ensures found { option_map (λ stamp. stamp.now) result
            ≡ option_map (λ held. held.chunk.stamp) (slice_get self.now.held index) }
        ensures none { IsNone result ↔ (length self.now.held ≤ index) }
    {
        match held_at(&self.held, index) {
            Some(held) => Some(held.chunk.stamp()),
            None => None,
        }
    }

    /// The stamps of all chunks that it holds, in the order of their versions, in one pass over them.
    pub fn stamps(&self, alloc: Global) -> Result<Vec<Stamp>, AllocError>
        ensures { IfOk result (λ stamps. stamps.items
            ≡ map (λ held. held.chunk.stamp) self.now.held) }
    {
        stamps_of(alloc, &self.held)
    }

    /// Adds the chunk as prepared and tells the epoch. A version that is held already keeps its
    /// chunk and its mark. Where the server is away nothing is added, and the count of downs is
    /// told. Where memory is wanting the server is as before.
    pub fn prepare(&mut self, chunk: SealedChunk) -> Result<Placement, AllocError>
        requires { MayCome self.old chunk }
        ensures ok { IfOk result (λ placement.
            (self.new, placement) ≡ prepare_of chunk self.old) }
        ensures err { OnErr result (self.new ≡ self.old) }
        ensures absent { OnErr result (IsFalse (is_held chunk.stamp.version self.old.held)) }
        ensures present { OnErr result (IsFalse self.old.away) }
        ensures core { (core_of self.new, told_prepared result)
            ≡ at_server (is_err result) (ServerStep.Prepare chunk.stamp.version) (core_of self.old) }
    {
        if self.away {
            return Ok(Placement::Skipped(self.downs));
        }
        let version = chunk.stamp().version();
        if self.is_held(version) {
            return Ok(Placement::At(self.epoch));
        }
        self.add(version, Mark::Prepared, chunk)?;
        Ok(Placement::At(self.epoch))
    }

    /// Marks the version's chunk as settled. Nothing changes where the version isn't held.
    pub fn settle(&mut self, version: Version)
        ensures marked { self.new ≡ after_settle version.0 self.old }
        ensures core { (core_of self.new, Told.Settled)
            ≡ at_server false (ServerStep.Settle version.0) (core_of self.old) }
    {
        if let Some(held) = self.held.get_mut(&version) {
            held.mark = Mark::Settled;
        }
    }

    /// Tells whether the version is held, and the epoch where it isn't, or the count of downs
    /// where the server is away.
    pub fn has(&self, version: Version) -> Presence
        ensures answer { result ≡ presence_of version.0 self.now }
        ensures core { (core_of self.now, told_presence result)
            ≡ at_server false (ServerStep.Has version.0) (core_of self.now) }
    {
        if !self.away && self.is_held(version) {
            Presence::Here
        } else {
            Presence::Missing {
                found: self.found(),
            }
        }
    }

    /// Gives the subchunks of the version's chunk at these layers, in this order, and counts them
    /// as taken, up to the count's last value. Where the version isn't held the epoch is told,
    /// and where the server is away the count of downs. Where memory is wanting the server is as
    /// before.
    pub fn fetch(&mut self, version: Version, layers: &[u32]) -> Result<Fetched, AllocError>
        requires { All (λ layer. layer < layer_count self.old.book.geometry) layers.now }
        ensures ok { IfOk result (λ answer.
            (self.new, answer) ≡ fetch_of version.0 layers.now self.old) }
        ensures missing { (result ≡ Ok (Fetched.Missing (found_at self.old)))
            ↔ IsFalse (not self.old.away && is_held version.0 self.old.held) }
        ensures part { IfOk result (GivesPart self.old version.0 layers.now) }
        ensures err { OnErr result (self.new ≡ self.old) }
        ensures core { (core_of self.new, told_fetched (length layers.now) result)
            ≡ at_server (is_err result) (ServerStep.Fetch version.0 layers.now) (core_of self.old) }
    {
        if self.away {
            return Ok(Fetched::Missing {
                found: self.found(),
            });
        }
        let Some(held) = self.held.get(&version) else {
            return Ok(Fetched::Missing {
                found: self.found(),
            });
        };
        let part = held.chunk.part(layers)?;
        self.taken = self.taken.saturating_add(layers.len() as u64);
        Ok(Fetched::Part(part))
    }

    /// Adds the chunk as settled and tells the epoch. A version that is held already keeps its
    /// chunk and its mark. Where the server is away, which goes first, nothing is added, and the
    /// count of downs is told. Where memory is wanting the server is as before.
    pub fn install(&mut self, chunk: SealedChunk) -> Result<Installed, AllocError>
        requires { MayCome self.old chunk }
        ensures ok { IfOk result (λ answer.
            (self.new, answer) ≡ install_of chunk self.old) }
        ensures already { (result ≡ Ok Installed.AlreadyThere)
            ↔ IsTrue (not self.old.away && is_held chunk.stamp.version self.old.held) }
        ensures away { (result ≡ Ok (Installed.Away self.old.downs)) ↔ IsTrue self.old.away }
        ensures err { OnErr result (self.new ≡ self.old) }
        ensures core { (core_of self.new, told_installed result)
            ≡ at_server (is_err result) (ServerStep.Install chunk.stamp.version) (core_of self.old) }
    {
        if self.away {
            return Ok(Installed::Away { downs: self.downs });
        }
        let version = chunk.stamp().version();
        if self.is_held(version) {
            return Ok(Installed::AlreadyThere);
        }
        self.add(version, Mark::Settled, chunk)?;
        Ok(Installed::Placed { epoch: self.epoch })
    }

    /// Removes the version's chunk. Nothing changes where the version isn't held.
    pub fn discard(&mut self, version: Version)
        ensures removed { self.new ≡ after_discard version.0 self.old }
        ensures core { (core_of self.new, Told.Made)
            ≡ at_server false (ServerStep.Discard version.0) (core_of self.old) }
    {
        self.held.remove(&version);
    }

    /// Removes all chunks and raises the epoch by one, up to its last value. The count of
    /// subchunks taken stays.
    pub fn wipe(&mut self)
        ensures emptied { self.new ≡ after_wipe self.old }
        ensures core { (core_of self.new, Told.Made)
            ≡ at_server false ServerStep.Wipe (core_of self.old) }
    {
        self.held.clear();
        self.epoch = self.epoch.saturating_add(1);
    }

    /// Makes the server away and raises the count of downs by one, up to its last value, also
    /// where it is away already. What it holds stays.
    pub fn down(&mut self)
        ensures away { self.new ≡ after_down self.old }
        ensures core { (core_of self.new, Told.Made)
            ≡ at_server false ServerStep.Down (core_of self.old) }
    {
        self.away = true;
        self.downs = self.downs.saturating_add(1);
    }

    /// Makes the server present.
    pub fn up(&mut self)
        ensures present { self.new ≡ after_up self.old }
        ensures core { (core_of self.new, Told.Made)
            ≡ at_server false ServerStep.Up (core_of self.old) }
    {
        self.away = false;
    }

    // Why the server gives no chunk.
    fn found(&self) -> Found
        ensures { result ≡ found_at self.now }
    {
        if self.away {
            Found::Away { downs: self.downs }
        } else {
            Found::Absent { epoch: self.epoch }
        }
    }

    fn is_held(&self, version: Version) -> bool
        ensures { result ≡ is_held version.0 self.now.held }
    {
        self.held.contains_key(&version)
    }

    // Adds the chunk of a version that isn't held.
    fn add(&mut self, version: Version, mark: Mark, chunk: SealedChunk) -> Result<(), AllocError>
        requires new { is_held version.0 self.old.held ≡ false }
        requires named { version.0 ≡ chunk.stamp.version }
        requires here { MayCome self.old chunk }
        ensures ok { OnOk result (self.new ≡ after_adding mark chunk self.old) }
        ensures err { OnErr result (self.new ≡ self.old) }
    {
        // That the chunk is sealed is needed below.
        let _ = chunk.bytes();
        self.held.insert(version, HeldChunk { mark, chunk })?;
        Ok(())
    }
}

// The `index`th chunk in the order of versions.
fn held_at(held: &BTreeMap<Version, HeldChunk>, index: usize) -> Option<&HeldChunk>
    ensures { option_map (λ chunk. chunk.now) result ≡ slice_get (values held.now) index }
{
    held.values().nth(index)
}

// The stamps of all chunks in the order of versions.
fn stamps_of(alloc: Global, held: &BTreeMap<Version, HeldChunk>) -> Result<Vec<Stamp>, AllocError>
    ensures { IfOk result (λ stamps. stamps.items
        ≡ map (λ chunk. chunk.chunk.stamp) (values held.now)) }
{
    held.values().map(|chunk| stamp_of(chunk)).collect(alloc)
}

fn stamp_of(held: &HeldChunk) -> Stamp
    ensures { result ≡ held.now.chunk.stamp }
{
    held.chunk.stamp().copy()
}
