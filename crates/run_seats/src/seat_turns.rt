//! An actor's turns at all places of a store.
use crate::directory_box::DirectoryBox;
use crate::server_box::ServerBox;
use turn_lock::Turn;

/// The turns of one actor at the directory and at each server, all under one number.
#[derive(Drop)]
pub struct Turns {
    pub number: u32,
    pub directory: Turn<DirectoryBox>,
    pub servers: Vec<Turn<ServerBox>>,
}
