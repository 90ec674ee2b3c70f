//! What is told of every version that ever was, for contracts alone: when it runs nothing of it is kept here.
ghost use Rattle.std.specs.Prelude.{◌≡◌, ◌∷◌, [], ◌++◌};
ghost use Rattle.store_core.specs.Lists.{change_at};
ghost use Rattle.version_table.specs.Told.{entry_drawn, changed, numbers_of};

use boxcar::tag::{Names, Tag};
use std::marker::Model;
use store_map::{Actor, Placement};

// Where a version stands.
#[derive(Clone, Copy)]
pub enum Standing {
    Drawn,
    Current,
    Superseded,
    Taken,
    Swept,
}

// What becomes of a version.
#[derive(Drop)]
pub enum Change<'a> {
    Standing(Standing),
    Current(&'a [Placement]),
    Swept,
    Unpinned,
    Pinned,
    PlacedAnew { server: usize, epoch: u64 },
}

// What is told of every version.
pub struct ToldVersions {
    tag: Tag,
}

// By hand, since a derived one is proved again in each crate that drops the type.
impl Drop for ToldVersions {
    fn drop(self) {
        let ToldVersions { tag: _tag } = self;
    }
}

impl Model for ToldVersions {
    ghost use Rattle.std.specs.Prelude.{List};
    ghost use Rattle.version_table.specs.Told.{Entry};

    ghost Value = { List Entry };

    ghost use Rattle.version_table.specs.Told.{entries_in};

    ghost view = { entries_in };
}

// One version more.
#[derive(Drop)]
struct Drawing<'a> {
    told: &'a ToldVersions,
    actor: Actor,
    number: u32,
    stripe: u32,
    base: Option<u64>,
}

struct AfterDraw;

impl<'a> Names<Drawing<'a>> for AfterDraw {
    ghost numbers = { λ d. numbers_of (d.told.now ++ entry_drawn d.actor d.number d.stripe d.base ∷ []) };
}

// One version that is changed.
#[derive(Drop)]
struct Changing<'a> {
    told: &'a ToldVersions,
    number: u64,
    change: &'a Change<'a>,
}

struct AfterChange;

impl<'a> Names<Changing<'a>> for AfterChange {
    ghost numbers = { λ c. numbers_of (change_at c.number (changed c.change.now) c.told.now) };
}

struct Nothing;

impl Names<()> for Nothing {
    ghost numbers = { λ _. numbers_of [] };
}

impl ToldVersions {
    // No versions.
    pub fn new() -> ToldVersions
        ensures { result ≡ [] }
    {
        ToldVersions {
            tag: Tag::of::<(), Nothing>(&()),
        }
    }

    // One version more, which is drawn.
    pub fn draw(&mut self, actor: Actor, number: u32, stripe: u32, base: Option<u64>)
        ensures { self.new ≡ self.old ++ entry_drawn actor number stripe base ∷ [] }
    {
        let tag = Tag::of::<Drawing, AfterDraw>(&Drawing {
            told: self,
            actor,
            number,
            stripe,
            base,
        });
        self.tag = tag;
    }

    // What becomes of the version with this number, if there is one.
    pub fn change(&mut self, number: u64, change: &Change)
        ensures { self.new ≡ change_at number (changed change.now) self.old }
    {
        let tag = Tag::of::<Changing, AfterChange>(&Changing {
            told: self,
            number,
            change,
        });
        self.tag = tag;
    }
}
