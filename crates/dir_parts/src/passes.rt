//! The calls in work, each with what it pinned and drew.
ghost use Rattle.std.specs.Prelude.{◌≡◌, ◌+◌, ◌<◌, ◌∷◌, [], length, slice_get, ℕ, All, Some, IsTrue, is_some, vec_capacity, IfSome, OnOk, option_map, find};
ghost use Rattle.std.specs.List.Sorted.{IsPermutation};
ghost use Rattle.store_core.specs.Lookups.{same_actor};
ghost use Rattle.dir_parts.specs.OpenPass.{Open, HasRoom, pass_drawn, pass_reaped, given, reaped_at};
ghost use Rattle.dir_parts.specs.Whose.{own_pass, without_own, change_own, AreApart, own_call, without_own_call, change_own_call, AreCallsApart};

use std::alloc::{AllocError, Global};
use std::marker::Model;
use std::snapshot::Snapshot;
use store_map::{Actor, Name};

/// The kinds of call.
#[derive(Clone, Copy)]
pub enum CallKind {
    Put,
    Write,
    Get,
    ReadAt,
    Stat,
    Delete,
    Rebuild,
}

/// What is kept of a call: no bytes.
#[derive(Drop)]
pub struct CallNote {
    pub kind: CallKind,
    pub name: Name,
    pub offset: u32,
    pub length: u32,
}

impl Model for CallNote {
    ghost use Rattle.store_core.specs.Note.{Note};

    ghost Value = { Note };

    ghost use Rattle.dir_parts.specs.Passes.{note_in};

    ghost view = { note_in };
}

/// A pinned stripe and its version.
#[derive(Drop)]
pub struct Pinned {
    pub stripe: u32,
    pub version: u64,
}

impl Model for Pinned {
    ghost use Rattle.store_core.specs.Directory.{Pin};

    ghost Value = { Pin };

    ghost use Rattle.dir_parts.specs.Passes.{pin_in};

    ghost view = { pin_in };
}

/// A call in work, with the room in which its object's versions stand after its commit.
#[derive(Drop)]
pub struct OpenPass {
    pub actor: Actor,
    pub number: u32,
    pub note: CallNote,
    pub pinned: Vec<Pinned>,
    pub drawn: Vec<u64>,
    pub looked_at: Option<u64>,
    pub reaped: Option<u64>,
    pub spare: Vec<u64>,
}

impl Model for OpenPass {
    ghost use Rattle.dir_parts.specs.OpenPass.{Open};

    ghost Value = { Open };

    ghost use Rattle.dir_parts.specs.OpenPass.{open_in};

    ghost view = { open_in };
}

/// The calls in work, the newest first.
pub struct Passes {
    stripe_len: u32,
    open: Vec<OpenPass>,
}

// By hand, since a derived one is proved again in each crate that drops the type.
impl Drop for Passes {
    fn drop(self) {
        let Passes {
            stripe_len: _stripe_len,
            open: _open,
        } = self;
    }
}

impl Model for Passes {
    ghost use Rattle.dir_parts.specs.OpenPass.{Desk};

    ghost Value = { Desk };

    ghost use Rattle.dir_parts.specs.Desk.{desk_in, IsDesk};

    ghost view = { desk_in };

    ghost invariant = { IsDesk };
}

// The same actor.
fn is_same(a: Actor, b: Actor) -> bool
    ensures { result ≡ same_actor a b }
{
    match (a, b) {
        (Actor::Client(i), Actor::Client(j)) => i == j,
        (Actor::Repairer(i), Actor::Repairer(j)) => i == j,
        (Actor::Sweeper, Actor::Sweeper) => true,
        (Actor::Operator, Actor::Operator) => true,
        _ => false,
    }
}

// Where the actor's pass stands, past the end where it has none.
fn place_of(calls: &[OpenPass], actor: Actor) -> usize
    ensures { own_call actor calls.now ≡ slice_get calls.now result }
{
    let mut at = 0;
    while at < calls.len() {
        let one = &calls[at];
        if is_same(actor, one.actor) {
            return at;
        }
        at += 1;
    }
    at
}

// Where the actor's pass stands, where it has one.
fn own_place(calls: &[OpenPass], actor: Actor) -> usize
    requires { IsTrue (is_some (own_call actor calls.now)) }
    ensures within { result < length calls.now }
    ensures found { own_call actor calls.now ≡ slice_get calls.now result }
{
    place_of(calls, actor)
}

// Takes the actor's pass out of those that are open.
fn take_pass(calls: &mut Vec<OpenPass>, actor: Actor) -> OpenPass
    requires there { IsTrue (is_some (own_call actor calls.old.items)) }
    requires apart { AreCallsApart calls.old.items }
    ensures found { own_call actor calls.old.items ≡ Some result }
    ensures left { calls.new.items ≡ without_own_call actor calls.old.items }
    ensures others { IsPermutation calls.old.items (result ∷ calls.new.items) }
{
    let at = own_place(calls, actor);
    calls.remove(at)
}

// The actor's pass gets what it has drawn, and room.
fn set_drawn(
    calls: &mut Vec<OpenPass>,
    actor: Actor,
    drawn: Vec<u64>,
    spare: Vec<u64>,
) -> Snapshot<OpenPass>
    requires there { IsTrue (is_some (own_call actor calls.old.items)) }
    requires apart { AreCallsApart calls.old.items }
    ensures after { calls.new.items ≡ change_own_call actor (given drawn.items (vec_capacity spare)) calls.old.items }
    ensures entry { IfSome (own_call actor calls.old.items) (λ o. result.value ≡ given drawn.items (vec_capacity spare) o) }
    ensures rooms { (stripe_len : ℕ) → All (HasRoom stripe_len) calls.old.items → IfSome (own_call actor calls.old.items) (λ o. HasRoom stripe_len (given drawn.items (vec_capacity spare) o)) → All (HasRoom stripe_len) calls.new.items }
{
    let at = own_place(calls, actor);
    let one = &mut calls[at];
    one.drawn = drawn;
    one.spare = spare;
    Snapshot::of(one)
}

// The actor's pass was given up at this point.
fn set_reaped(calls: &mut Vec<OpenPass>, actor: Actor, point: u64)
    requires there { IsTrue (is_some (own_call actor calls.old.items)) }
    requires apart { AreCallsApart calls.old.items }
    ensures { calls.new.items ≡ change_own_call actor (reaped_at point) calls.old.items }
{
    let at = own_place(calls, actor);
    let one = &mut calls[at];
    one.reaped = Some(point);
}

impl Passes {
    /// No calls, at an object store whose stripes have so many bytes.
    pub fn new(alloc: Global, stripe_len: u32) -> Passes
        ensures { result ≡ record { stripe_len = stripe_len; listed = []; space = 0 } }
    {
        Passes {
            stripe_len,
            open: Vec::new(alloc),
        }
    }

    /// How many calls are in work.
    pub fn len(&self) -> usize
        ensures { result ≡ length self.now.listed }
    {
        self.open.len()
    }

    /// Takes the room for one call more.
    pub fn reserve(&mut self) -> Result<(), AllocError>
        ensures listed { self.new.listed ≡ self.old.listed }
        ensures stripe { self.new.stripe_len ≡ self.old.stripe_len }
        ensures ok { OnOk result (0 < self.new.space) }
    {
        self.open.reserve(1)?;
        Ok(())
    }

    /// The actor's pass, if it has one.
    pub fn find(&self, actor: Actor) -> Option<&OpenPass>
        ensures { option_map (λ o. o.now.pass) result ≡ own_pass actor self.now.listed }
    {
        let at = place_of(&self.open, actor);
        if at < self.open.len() {
            return Some(&self.open[at]);
        }
        None
    }

    /// Begins a call that has drawn nothing, before the others.
    pub fn begin(&mut self, pass: OpenPass) -> Snapshot<OpenPass>
        requires space { 0 < self.old.space }
        requires undrawn { pass.pass.drawn ≡ [] }
        ensures listed { self.new.listed ≡ pass.pass ∷ self.old.listed }
        ensures stripe { self.new.stripe_len ≡ self.old.stripe_len }
        ensures entry { result.value ≡ pass }
    {
        let entry = Snapshot::of(&pass);
        match self.open.insert(0, pass) {
            Ok(()) => entry,
            Err(_) => unreachable!(),
        }
    }

    /// Ends the actor's call.
    pub fn take(&mut self, actor: Actor) -> OpenPass
        requires there { IsTrue (is_some (own_pass actor self.old.listed)) }
        requires apart { AreApart self.old.listed }
        ensures found { own_pass actor self.old.listed ≡ Some result.pass }
        ensures left { self.new.listed ≡ without_own actor self.old.listed }
        ensures others { IsPermutation self.old.listed (result.pass ∷ self.new.listed) }
        ensures room { HasRoom self.old.stripe_len result }
        ensures stripe { self.new.stripe_len ≡ self.old.stripe_len }
    {
        take_pass(&mut self.open, actor)
    }

    /// The actor's call has drawn versions, and has room for its object's.
    pub fn draw(&mut self, actor: Actor, drawn: Vec<u64>, spare: Vec<u64>) -> Snapshot<OpenPass>
        requires there { IsTrue (is_some (own_pass actor self.old.listed)) }
        requires apart { AreApart self.old.listed }
        requires room { IfSome (own_pass actor self.old.listed) (λ pass. HasRoom self.old.stripe_len (record { pass = pass_drawn drawn.items pass; room = vec_capacity spare })) }
        ensures listed { self.new.listed ≡ change_own actor (pass_drawn drawn.items) self.old.listed }
        ensures entry { IfSome (own_pass actor self.old.listed) (λ pass. result.value.pass ≡ pass_drawn drawn.items pass) }
        ensures stripe { self.new.stripe_len ≡ self.old.stripe_len }
    {
        set_drawn(&mut self.open, actor, drawn, spare)
    }

    /// The actor's call was given up at this point.
    pub fn reap(&mut self, actor: Actor, point: u64)
        requires there { IsTrue (is_some (own_pass actor self.old.listed)) }
        requires apart { AreApart self.old.listed }
        ensures listed { self.new.listed ≡ change_own actor (pass_reaped point) self.old.listed }
        ensures stripe { self.new.stripe_len ≡ self.old.stripe_len }
    {
        set_reaped(&mut self.open, actor, point);
    }
}
