//! What the directory keeps.
use clay_grid::Geometry;
use dir_parts::{History, Objects, Passes};
use std::alloc::Global;
use std::marker::Model;
use stripe_stamps::Stamps;
use version_table::Versions;

/// The objects, the versions of their stripes with their stamps, the calls in work and the history.
pub struct Directory {
    pub(crate) alloc: Global,
    pub(crate) geometry: Geometry,
    pub(crate) max: u32,
    pub(crate) objects: Objects,
    pub(crate) versions: Versions,
    pub(crate) passes: Passes,
    pub(crate) history: History,
    pub(crate) stamps: Stamps,
}

// By hand, since a derived one is proved again in each crate that drops the type.
impl Drop for Directory {
    fn drop(self) {
        let Directory {
            alloc: _alloc,
            geometry: _geometry,
            max: _max,
            objects: _objects,
            versions: _versions,
            passes: _passes,
            history: _history,
            stamps: _stamps,
        } = self;
    }
}

impl Model for Directory {
    ghost use Rattle.stripe_stamps.specs.Sealed.{Sealed};

    ghost Value = { Sealed };

    ghost use Rattle.stripe_dir.specs.Kept.{sealed_in, IsKept};

    ghost view = { sealed_in };

    ghost invariant = { IsKept };
}
