//! The places of a session's steps.
use chunk_server::Server;
use stripe_dir::Directory;
use version_seal::Book;

/// The directory and the servers of one book, whose calls run one after another.
#[derive(Drop)]
pub(crate) struct SessionPlaces {
    pub(crate) book: Book,
    pub(crate) directory: Directory,
    pub(crate) servers: Vec<Server>,
}
