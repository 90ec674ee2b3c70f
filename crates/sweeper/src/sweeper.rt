//! The sweeper as a machine of steps.
ghost use Rattle.std.specs.Prelude.{◌≡◌, ℕ, false, Some};
ghost use Rattle.store_map.specs.declared.actor.Actor.{Actor as CoreActor};
ghost use Rattle.store_core.specs.Sweep.{is_busy};
ghost use Rattle.chunk_server.specs.Core.{core_of};
ghost use Rattle.chunk_server.specs.State.{IsSame};
ghost use Rattle.call_steps.specs.Steps.{IsServerBelow};
ghost use Rattle.call_steps.specs.Acts.{act_by};
ghost use Rattle.call_steps.specs.Answers.{directory_answer, server_told};
ghost use Rattle.sweeper.specs.Sweeps.{new_sweeper, act_of, need_of, stepped_at_directory, stepped_at_server, discarded_at};
ghost use Rattle.sweeper.specs.Sweeps.{told_at_directory, told_at_server};

use call_steps::{Act, DirectoryAct, DirectoryAnswer, Need, ServerAct, ServerAnswer};
use chunk_server::Server;
use std::marker::Model;
use store_map::Version;
use stripe_dir::Directory;

/// The sweeper of the stripes of one store. No step of it takes memory.
pub struct Sweeper {
    servers: u32,
    // the version that was taken, and the server that discards it next
    version: Option<Version>,
    server: u32,
}

// By hand, since a derived one is proved again in each crate that drops the type.
impl Drop for Sweeper {
    fn drop(self) {
        let Sweeper {
            servers: _servers,
            version: _version,
            server: _server,
        } = self;
    }
}

impl Model for Sweeper {
    ghost use Rattle.sweeper.specs.Sweeps.{SweeperOf};

    ghost Value = { SweeperOf };

    ghost use Rattle.sweeper.specs.Inside.{sweeper_in};

    ghost view = { sweeper_in };
}

impl Sweeper {
    /// A sweeper that has taken no version, of stripes with so many servers.
    pub fn new(servers: u32) -> Sweeper
        ensures { result ≡ new_sweeper servers }
    {
        Sweeper {
            servers,
            version: None,
            server: 0,
        }
    }

    /// Where it has to go on: at the directory, or at the server that discards the version next.
    pub fn need(&self) -> Need
        ensures need { result ≡ need_of self.now }
        ensures below { IsServerBelow self.now.servers result }
    {
        if self.version.is_some() && self.server < self.servers {
            return Need::Server(self.server);
        }
        Need::Directory
    }

    /// What it does next.
    pub fn act(&self) -> Act
        ensures { result ≡ act_by (act_of self.now) false }
    {
        match self.version {
            Some(version) if self.server < self.servers => {
                Act::Server(self.server, ServerAct::Discard(version))
            }
            Some(version) => Act::Directory(DirectoryAct::Swept(version)),
            None => Act::Directory(DirectoryAct::NextGarbage),
        }
    }

    /// Whether it has begun with a version.
    pub fn busy(&self) -> bool
        ensures { result ≡ is_busy self.now.at }
    {
        self.version.is_some()
    }

    /// One step at the directory: it takes the least version that may be swept, or tells that the
    /// version is swept.
    pub fn on_directory(&mut self, d: &mut Directory) -> DirectoryAnswer
        requires { need_of self.old ≡ Need.Directory }
        ensures step { (who : CoreActor) → (number : ℕ) →
            (d.new.core, self.new) ≡ stepped_at_directory who number self.old d.old.core }
        ensures told { (who : CoreActor) → (number : ℕ) →
            directory_answer (told_at_directory who number self.old d.old.core) ≡ Some result }
        ensures book { d.new.book ≡ d.old.book }
        ensures stamps { d.new.stamps ≡ d.old.stamps }
    {
        match self.version {
            Some(version) => {
                d.swept(version);
                self.version = None;
                DirectoryAnswer::Made
            }
            None => {
                let taken = d.next_garbage();
                self.version = taken;
                self.server = 0;
                DirectoryAnswer::Taken(taken)
            }
        }
    }

    /// One step at the server that is needed: it discards its chunk of the version.
    pub fn on_server(&mut self, s: &mut Server) -> ServerAnswer
        requires { need_of self.old ≡ Need.Server s.old.number }
        ensures step { (core_of s.new, self.new) ≡ stepped_at_server self.old (core_of s.old) }
        ensures told { server_told result ≡ told_at_server self.old (core_of s.old) }
        ensures server { s.new ≡ discarded_at self.old.at s.old }
        ensures same { IsSame s.old s.new }
    {
        match self.version {
            Some(version) => s.discard(version),
            None => unreachable!(),
        }
        // That there are so many servers bounds the sum.
        let _servers = self.servers;
        self.server += 1;
        ServerAnswer::Made
    }
}
