//! A client's put: a write that keeps no old bytes. It looks, draws versions, has their chunks made and
//! placed, commits and settles.
#![tactic(auto)]

mod put;

pub use put::PutCall;
