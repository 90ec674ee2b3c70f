//! Calls of clients and of repairers.
ghost use Rattle.std.specs.Prelude.{◌≡◌, IfOk};

use crate::content::Content;
use crate::name::Name;
use std::alloc::AllocError;

/// A client's call. Offsets and lengths count bytes.
#[derive(PartialEq, Eq, Debug, Drop)]
pub enum Call {
    Put {
        name: Name,
        content: Content,
    },
    Write {
        name: Name,
        offset: u32,
        content: Content,
    },
    Get {
        name: Name,
    },
    ReadAt {
        name: Name,
        offset: u32,
        length: u32,
    },
    Stat {
        name: Name,
    },
    Delete {
        name: Name,
    },
}

/// A repairer's call: make the server's chunk of one stripe of an object anew.
#[derive(PartialEq, Eq, Drop)]
pub struct Rebuild {
    pub name: Name,
    pub stripe: u32,
    pub server: u32,
}

impl Call {
    /// The same call in memory of its own.
    pub fn copy(&self) -> Result<Call, AllocError>
        ensures { IfOk result (λ call. call ≡ self.now) }
    {
        match self {
            Call::Put { name, content } => Ok(Call::Put {
                name: name.copy()?,
                content: content.copy()?,
            }),
            Call::Write {
                name,
                offset,
                content,
            } => Ok(Call::Write {
                name: name.copy()?,
                offset: *offset,
                content: content.copy()?,
            }),
            Call::Get { name } => Ok(Call::Get { name: name.copy()? }),
            Call::ReadAt {
                name,
                offset,
                length,
            } => Ok(Call::ReadAt {
                name: name.copy()?,
                offset: *offset,
                length: *length,
            }),
            Call::Stat { name } => Ok(Call::Stat { name: name.copy()? }),
            Call::Delete { name } => Ok(Call::Delete { name: name.copy()? }),
        }
    }
}

impl Rebuild {
    /// The same call in memory of its own.
    pub fn copy(&self) -> Result<Rebuild, AllocError>
        ensures { IfOk result (λ rebuild. rebuild ≡ self.now) }
    {
        Ok(Rebuild {
            name: self.name.copy()?,
            stripe: self.stripe,
            server: self.server,
        })
    }
}
