//! The sweeper's steps: garbage is taken, and told to be swept.
ghost use Rattle.std.specs.Prelude.{◌≡◌, is_some, option_map};
ghost use Rattle.store_core.specs.Told.{Told};
ghost use Rattle.store_core.specs.Act.{DirectoryStep};
ghost use Rattle.stripe_dir.specs.Steps.{IsStepOfAny};
ghost use Rattle.store_core.specs.Lookups.{first_garbage};

use crate::directory::Directory;
use store_map::Version;

impl Directory {
    /// Takes the least version that is superseded and that no pass pins which isn't reaped.
    pub fn next_garbage(&mut self) -> Option<Version>
        ensures step { IsStepOfAny DirectoryStep.NextGarbage self.old self.new (Told.Taken (option_map (λ version. version.0) result)) }
        ensures book { self.new.book ≡ self.old.book }
        ensures stamps { self.new.stamps ≡ self.old.stamps }
    {
        match self.versions.take_least() {
            Some(version) => Some(Version(version)),
            None => None,
        }
    }

    /// Whether there is such a version.
    pub fn has_garbage(&self) -> bool
        ensures { result ≡ is_some (first_garbage self.now.core) }
    {
        self.versions.has_garbage()
    }

    /// A version that was taken is swept; nothing where it isn't taken.
    pub fn swept(&mut self, version: Version)
        ensures step { IsStepOfAny (DirectoryStep.Swept version.0) self.old self.new Told.Made }
        ensures book { self.new.book ≡ self.old.book }
        ensures stamps { self.new.stamps ≡ self.old.stamps }
    {
        self.versions.sweep(version.0);
    }
}
