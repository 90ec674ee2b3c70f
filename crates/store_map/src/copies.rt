//! Scripts in memory of their own.
ghost use Rattle.std.specs.Prelude.{◌≡◌, IfOk};

use crate::actor::Token;
use crate::call::{Call, Rebuild};
use crate::list_of::ListOf;
use crate::script::{ClientPart, RepairPart, Script};
use std::alloc::AllocError;

// What can be had once more, in memory of its own.
trait Copied: Sized {
    fn copied(&self) -> Result<Self, AllocError>
        ensures { IfOk result (λ copy. copy ≡ self.now) };
}

impl Copied for Call {
    fn copied(&self) -> Result<Call, AllocError> {
        self.copy()
    }
}

impl Copied for Rebuild {
    fn copied(&self) -> Result<Rebuild, AllocError> {
        self.copy()
    }
}

impl Copied for ClientPart {
    fn copied(&self) -> Result<ClientPart, AllocError> {
        Ok(ClientPart {
            calls: copies_of(&self.calls)?,
            leave: self.leave,
        })
    }
}

impl Copied for RepairPart {
    fn copied(&self) -> Result<RepairPart, AllocError> {
        Ok(RepairPart {
            calls: copies_of(&self.calls)?,
            leave: self.leave,
        })
    }
}

fn copies_of<T: Copied + Drop>(items: &ListOf<T>) -> Result<ListOf<T>, AllocError>
    ensures { IfOk result (λ copies. copies ≡ items.now) }
{
    let mut copies = Vec::with_capacity(items.allocator(), items.len())?;
    for item in items.as_slice() {
        copies.push(item.copied()?)?;
    }
    Ok(ListOf::from_vec(copies))
}

impl ListOf<Token> {
    fn copy(&self) -> Result<Self, AllocError>
        ensures { IfOk result (λ list. list ≡ self.now) }
    {
        Ok(ListOf::from_vec(Vec::from_slice(self.allocator(), self.as_slice())?))
    }
}

impl Script {
    /// The same script in memory of its own.
    pub fn copy(&self) -> Result<Script, AllocError>
        ensures { IfOk result (λ script. script ≡ self.now) }
    {
        Ok(Script {
            form: self.form,
            geometry: self.geometry,
            size: self.size,
            tries: self.tries,
            clients: copies_of(&self.clients)?,
            repairers: copies_of(&self.repairers)?,
            schedule: self.schedule.copy()?,
        })
    }
}
