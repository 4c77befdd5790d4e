//! Images in a folder as a cell: files `server/partition/name.vol`, each one whole dump stream. What each is, is
//! judged at the opening. No clause says what a real folder has; the rules of lists and volumes are those of every
//! cell. What is known of the images is in ascending byte order of their names, each name once, at most 65,536 of
//! them (`IsCatalog` in `specs/Catalogs.antt`). Enter at `DirCell::open`, and at `FolderDoors` for all that a program
//! opens in the current folder. `backup_cli` stands above; `cell_core`, `dump_stream` and `host_edge` stand below.
#![tactic(auto)]

mod adapter;
mod backing;
mod catalog;
mod changing;
mod doors;
mod folder;
mod judging;
mod known;
mod listed;
mod listing;
mod looking;
mod merging;
mod outside;
mod removing;
mod saving;

pub use adapter::DirCell;
pub use doors::FolderDoors;
