//! Tests of how often the restores of a partition and of a volume set load tapes, over a plant and a cell in memory: by the volumes of a
//! batch and the tapes of their chains, with a copy of a tape in another slot, and with a tape that is gone. The loads in a row are
//! reckoned by hand from `batch_loads` in `restore_commands`. Nothing stands on these tests; `backup_session` stands below.
#![tactic(auto)]

#[cfg(test)]
mod rows;
#[cfg(test)]
mod running;
#[cfg(test)]
mod scripts;
