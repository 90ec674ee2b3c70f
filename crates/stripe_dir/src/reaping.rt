//! A reap: the operator gives up an actor's pass.
ghost use Rattle.std.specs.Prelude.{◌≡◌, ◌+◌, ◌<◌, ◌∷◌, [], ◌++◌, length, All, Contains, option_map};
ghost use Rattle.store_core.specs.Told.{Told};
ghost use Rattle.store_core.specs.Act.{DirectoryStep};
ghost use Rattle.store_core.specs.Directory.{Standing, Event as CoreEvent};
ghost use Rattle.store_core.specs.Look.{set_standing};
ghost use Rattle.version_table.specs.Counts.{unpinned};
ghost use Rattle.version_table.specs.Known.{IsKnown};
ghost use Rattle.dir_parts.specs.Parts.{point_by};
ghost use Rattle.stripe_dir.specs.Steps.{IsStepOfAny};

use crate::directory::Directory;
use dir_parts::{Event, History, OpenPass};
use store_map::{Actor, Point};
use version_table::Versions;

// Gives up a pass's pins and what it drew, and appends the point of its reap.
fn give_up(versions: &mut Versions, history: &mut History, pass: &OpenPass) -> u64
    requires pinned { All (λ pin. pin.version < length versions.old.listed) pass.now.pass.pinned }
    requires drawn { All (IsKnown versions.old.listed) pass.now.pass.drawn }
    requires room { 0 < history.old.room }
    requires named { Contains history.old.names pass.now.pass.note.name }
    ensures listed { versions.new.listed ≡ set_standing Standing.Superseded pass.now.pass.drawn versions.old.listed }
    ensures pins { versions.new.pins ≡ unpinned pass.now.pass.pinned versions.old.pins }
    ensures point { result ≡ length history.old.points }
    ensures points { history.new.points ≡ history.old.points ++ point_by pass.now.pass.actor pass.now.pass.number pass.now.pass.note CoreEvent.Reaped ∷ [] }
    ensures names { history.new.names ≡ history.old.names }
    ensures keeps { history.new.keeps ≡ history.old.keeps }
    ensures left { history.new.room + 1 ≡ history.old.room }
{
    versions.unpin_all(&pass.pinned);
    versions.supersede_all(&pass.drawn);
    history.add(pass.actor, pass.number, &pass.note, Event::Reaped)
}

impl Directory {
    /// Gives up the actor's pass, where it has one that isn't reaped. The pass stays until its actor's next step at the directory.
    pub fn reap(&mut self, actor: Actor) -> Option<Point>
        ensures step { IsStepOfAny (DirectoryStep.Reap actor) self.old self.new (Told.GivenUp (option_map (λ point. point.0) result)) }
        ensures book { self.new.book ≡ self.old.book }
        ensures stamps { self.new.stamps ≡ self.old.stamps }
    {
        let open = self.passes.find(actor)?;
        if open.reaped.is_some() {
            return None;
        }
        let point = give_up(&mut self.versions, &mut self.history, open);
        self.passes.reap(actor, point);
        Some(Point(point))
    }
}
