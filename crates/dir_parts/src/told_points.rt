//! The points that were told, for contracts alone: none of them is kept when it runs.
ghost use Rattle.std.specs.Prelude.{◌≡◌, ◌∷◌, [], ◌++◌};
ghost use Rattle.dir_parts.specs.ToldPoints.{point_numbers};

use crate::history::PointRow;
use boxcar::tag::{Names, Tag};
use std::marker::Model;

// All points.
pub struct ToldPoints {
    tag: Tag,
}

// By hand, since a derived one is proved again in each crate that drops the type.
impl Drop for ToldPoints {
    fn drop(self) {
        let ToldPoints { tag: _tag } = self;
    }
}

impl Model for ToldPoints {
    ghost use Rattle.std.specs.Prelude.{List};
    ghost use Rattle.dir_parts.specs.declared.history.PointRow.{PointRow};

    ghost Value = { List PointRow };

    ghost use Rattle.dir_parts.specs.ToldPoints.{points_in};

    ghost view = { points_in };
}

// One point more.
#[derive(Drop)]
struct Telling<'a> {
    told: &'a ToldPoints,
    point: &'a PointRow,
}

struct Longer;

impl<'a> Names<Telling<'a>> for Longer {
    ghost numbers = { λ t. point_numbers (t.told.now ++ t.point.now ∷ []) };
}

struct Nothing;

impl Names<()> for Nothing {
    ghost numbers = { λ _. point_numbers [] };
}

impl ToldPoints {
    // No points.
    pub fn new() -> ToldPoints
        ensures { result ≡ [] }
    {
        ToldPoints {
            tag: Tag::of::<(), Nothing>(&()),
        }
    }

    // One point more.
    pub fn push(&mut self, point: &PointRow)
        ensures { self.new ≡ self.old ++ point.now ∷ [] }
    {
        let tag = Tag::of::<Telling, Longer>(&Telling { told: self, point });
        self.tag = tag;
    }
}
