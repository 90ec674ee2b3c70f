//! Whether a version is known.
ghost use Rattle.std.specs.Prelude.{◌≡◌};
ghost use Rattle.version_table.specs.Known.{is_known};

use crate::directory::Directory;
use store_map::Version;

impl Directory {
    /// Whether the version is drawn, current, superseded or taken. One that isn't was never drawn here, or is swept.
    pub fn knows(&self, version: Version) -> bool
        ensures { result ≡ is_known self.now.core.versions version.0 }
    {
        self.versions.is_known(version.0)
    }
}
