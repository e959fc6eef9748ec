//! What holds in conditions, `#[cfg(..)]`, as texts: `NAME` or `NAME="VALUE"`, as rustc's option `--cfg` takes them.
#![tactic(auto)]

mod cfg;
mod name;

pub use cfg::{Cfg, cfg_in};
pub use name::is_name;
