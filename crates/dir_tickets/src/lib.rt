//! An actor's ticket at the directory: its seat, or the pass of its call, in one place, while its steps change it.
#![tactic(auto)]

mod answers_apart;
mod ticket;
mod ticket_looks;
mod ticket_steps;

pub use ticket::Ticket;
