//! Who may seal in a book, and which version comes next.
ghost use Rattle.std.specs.Prelude.{◌≡◌};

use boxcar::tag::Tag;
use std::marker::Model;
use store_map::Version;

/// The right to seal in one book, and the version that comes next. A book comes with its only one.
pub struct Sealer {
    next: u64,
    home: Tag,
}

// By hand, since a derived one is proved again in each crate that drops the type.
impl Drop for Sealer {
    fn drop(self) {
        let Sealer {
            next: _next,
            home: _home,
        } = self;
    }
}

impl Model for Sealer {
    ghost use Rattle.version_seal.specs.Sealer.{SealerOf};

    ghost Value = { SealerOf };

    ghost use Rattle.version_seal.specs.Inside.{sealer_in};

    ghost view = { sealer_in };
}

impl Sealer {
    // Of a book in which nothing is sealed.
    pub(crate) fn new(home: Tag) -> Sealer
        ensures { result ≡ record { home = home.numbers; next = 0 } }
    {
        Sealer { next: 0, home }
    }

    /// The version that comes next.
    pub fn next(&self) -> Version
        ensures { result.0 ≡ self.now.next }
    {
        Version(self.next)
    }

    // Another version comes next.
    pub(crate) fn move_to(&mut self, version: u64)
        ensures { self.new ≡ record { home = self.old.home; next = version } }
    {
        self.next = version;
    }
}
