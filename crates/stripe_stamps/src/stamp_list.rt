//! The stamps of a directory's versions.
ghost use Rattle.std.specs.Prelude.{◌≡◌, ◌+◌, ◌≤◌, ◌^◌, [], IfOk, OnOk, OnErr};
ghost use Rattle.version_seal.specs.Sealer.{sealer_at};
ghost use Rattle.stripe_stamps.specs.DrawnStamps.{stamps_of, with_more, CanSealAll};
ghost use Rattle.stripe_stamps.specs.Stamped.{AreOf, AreBases};

use crate::sealing::{Drawing, add_copies, seal_all};
use std::alloc::{AllocError, Global};
use std::marker::Model;
use version_seal::{Opening, Sealer, Stamp};

/// The stamps of a directory's versions, and the sealer of their book. The sealer stands behind the
/// last of them, so no number is sealed and not drawn.
pub struct Stamps {
    opening: Opening,
    listed: Vec<Stamp>,
    sealer: Sealer,
}

// By hand, since a derived one is proved again in each crate that drops the type.
impl Drop for Stamps {
    fn drop(self) {
        let Stamps {
            opening: _opening,
            listed: _listed,
            sealer: _sealer,
        } = self;
    }
}

impl Model for Stamps {
    ghost use Rattle.stripe_stamps.specs.StampList.{StampList};

    ghost Value = { StampList };

    ghost use Rattle.stripe_stamps.specs.StampList.{stamps_in, IsBehind};

    ghost view = { stamps_in };

    ghost invariant = { IsBehind };
}

impl Stamps {
    pub fn new(alloc: Global, opening: Opening, sealer: Sealer) -> Stamps
        requires { sealer ≡ sealer_at opening 0 }
        ensures { result ≡ record { book = opening; listed = [] } }
    {
        Stamps {
            opening,
            listed: Vec::new(alloc),
            sealer,
        }
    }

    pub fn as_slice(&self) -> &[Stamp]
        ensures { result.now ≡ self.now.listed }
    {
        &self.listed
    }

    /// Seals the versions of a draw and adds their stamps. Gives those. Takes all memory before it
    /// seals; where that is wanting nothing changes.
    pub fn draw(&mut self, drawing: &Drawing) -> Result<Vec<Stamp>, AllocError>
        requires book { drawing.now.book.now ≡ self.old.book }
        requires stripes { drawing.now.first + drawing.now.count ≤ 2 ^ 32 }
        requires call { CanSealAll drawing.now }
        requires stamps { AreOf drawing.now.book.now self.old.listed }
        requires bases { AreBases self.old.listed drawing.now.pass.now.pass.pinned }
        ensures added { OnOk result (self.new ≡ with_more self.old (stamps_of drawing.now self.old.listed)) }
        ensures fresh { IfOk result (λ fresh. fresh.items ≡ stamps_of drawing.now self.old.listed) }
        ensures err { OnErr result (self.new ≡ self.old) }
    {
        self.listed.reserve(drawing.count as usize)?;
        let fresh = seal_all(&mut self.sealer, drawing, &self.listed)?;
        add_copies(&mut self.listed, &fresh);
        Ok(fresh)
    }
}
