//! Which files were put into which places, for contracts alone: when it runs nothing of it is kept.
ghost use Rattle.std.specs.Prelude.{◌≡◌, ◌++◌, ◌∷◌, []};
ghost use Rattle.file_bytes.specs.Laid.{laid};
ghost use Rattle.share_run.specs.Places.{filled};
ghost use Rattle.share_run.specs.Logs.{numbers_of};

use boxcar::tag::{Names, Tag};
use clay_bytes::Sink;
use file_bytes::SinkAt;
use std::marker::Model;

/// The files that were put into places, in the order of the calls.
#[derive(Drop)]
pub struct FillLog {
    tag: Tag,
}

impl Model for FillLog {
    ghost use Rattle.std.specs.Prelude.{List};
    ghost use Rattle.share_run.specs.Places.{Filled};

    ghost Value = { List Filled };

    ghost use Rattle.share_run.specs.Logs.{filled_by};

    ghost view = { filled_by };
}

// A file that is put into a place.
#[derive(Drop)]
struct Filling<'a, K: SinkAt> {
    log: &'a FillLog,
    place: u32,
    made: &'a K,
}

struct AfterFilling;

impl<'a, K: SinkAt> Names<Filling<'a, K>> for AfterFilling {
    ghost numbers = { λ m. numbers_of (m.log.now ++ filled m.place (laid (K.put m.made.now)) ∷ []) };
}

// A file that was written in a row.
#[derive(Drop)]
struct FillingInRow<'a, K: Sink> {
    log: &'a FillLog,
    made: &'a K,
}

struct AfterRow;

impl<'a, K: Sink> Names<FillingInRow<'a, K>> for AfterRow {
    ghost numbers = { λ m. numbers_of (m.log.now ++ filled 0 (K.accepted m.made.now) ∷ []) };
}

impl FillLog {
    /// Before the first call.
    pub fn new() -> FillLog
        ensures { result ≡ [] }
    {
        FillLog { tag: Tag::empty() }
    }

    /// The file was put into the place.
    pub fn add<K: SinkAt>(&mut self, place: u32, made: &K)
        ensures { self.new ≡ self.old ++ filled place (laid (K.put made.now)) ∷ [] }
    {
        let tag = Tag::of::<Filling<K>, AfterFilling>(&Filling {
            log: self,
            place,
            made,
        });
        self.tag = tag;
    }

    /// The file that was written in a row was put into place 0.
    pub fn add_row<K: Sink>(&mut self, made: &K)
        ensures { self.new ≡ self.old ++ filled 0 (K.accepted made.now) ∷ [] }
    {
        let tag = Tag::of::<FillingInRow<K>, AfterRow>(&FillingInRow { log: self, made });
        self.tag = tag;
    }
}
