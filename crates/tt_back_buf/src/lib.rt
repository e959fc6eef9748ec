//! Bytes written from the last to the first.
#![tactic(auto)]

mod back_buf;
mod region;

pub use back_buf::BackBuf;
