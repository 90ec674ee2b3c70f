//! A store whose places stand behind locks.
use crate::directory_box::DirectoryBox;
use crate::server_box::ServerBox;
use store_map::Script;
use turn_lock::Lock;
use version_seal::Book;

/// The directory and each chunk server of a script's store, each behind a lock of its own, and the book
/// of their versions.
pub struct Store<'a> {
    pub script: &'a Script,
    pub directory: Lock<DirectoryBox>,
    pub servers: Vec<Lock<ServerBox>>,
    pub book: &'a Book,
}
