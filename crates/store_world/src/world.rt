//! What a world holds: the directory, the servers, the callers and the sweeper of a script.
use actors::Caller;
use chunk_server::Server;
use std::marker::Model;
use store_map::Script;
use stripe_dir::Directory;
use sweeper::Sweeper;
use version_seal::Book;

/// The world of a script: the directory, the servers in their order, the clients and repairers in the
/// script's order, and the sweeper.
pub struct World<'a> {
    pub(crate) script: &'a Script,
    pub(crate) book: &'a Book,
    pub(crate) directory: Directory,
    pub(crate) servers: Vec<Server>,
    pub(crate) clients: Vec<Caller<'a>>,
    pub(crate) repairers: Vec<Caller<'a>>,
    pub(crate) sweeper: Sweeper,
}

impl<'a> Model for World<'a> {
    ghost use Rattle.store_world.specs.Stored.{StoredWorld};

    ghost Value = { StoredWorld };

    ghost use Rattle.store_world.specs.Inside.{stored_in, IsKept};

    ghost view = { stored_in };

    ghost invariant = { IsKept };
}
