//! The tape configuration: which slots a port has, how much its tapes hold, whether tape names are checked there, and
//! the name of the cell. A `Config` is always what the lines of some configuration say (`IsConfig` in
//! `specs/Configs.antt`), so no two of its ports have a slot in common; a `Port` keeps its limits (`IsWithinLimits`
//! in `specs/Ports.antt`). Enter at `Config::parse`, then at `Config::port` and `Config::cell`; `config_of` says what
//! a configuration means. `tape_writer` stands above, and all that chooses or fills tapes; `bk_text` stands below.
#![tactic(auto)]

mod config;
mod entries;
mod fault;
mod laws;
mod line;
mod numbers;
mod port;
mod words;

pub use config::Config;
pub use fault::ConfigFault;
pub use laws::{a_configuration_has_its_forms, ports_of_a_configuration_are_apart};
pub use port::{Port, PortFields};
