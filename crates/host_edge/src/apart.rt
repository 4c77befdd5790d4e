//! Whether the names in a folder lead to files of their own.

ghost use Rattle.std.specs.Prelude.{◌≡◌, ◌≢◌, ◌<◌, ℕ, length, false, Err, IfOk, OnOk, None};
ghost use Rattle.host_edge.specs.Slots.{slot_at, file_among};
ghost use Rattle.host_edge.specs.Nodes.{IsApart, AreApart, IsToldAs, AreToldApart};
ghost use Rattle.host_edge.specs.declared.fault.EdgeFault.TheVariants.{TooMany};

use crate::disk_file::DiskFile;
use crate::fault::{EdgeFault, fault_at};
use crate::files::not_regular;
use crate::lists::add;
use crate::node::Node;
use crate::slots::{FILES, file_among, path_of};
use std::alloc::{AllocError, Global};
use std::io::{self, ErrorKind};

/// The fault of a refusal of the file of a number.
fn fault_of(alloc: Global, folder: &str, f: u32, cause: io::Error) -> EdgeFault
    ensures { result ≢ TooMany }
{
    match path_of(alloc, folder, f) {
        Ok(path) => fault_at(alloc, path.as_str(), cause),
        Err(_) => EdgeFault::Memory,
    }
}

/// Which file it is.
fn node_told<F: DiskFile>(file: &F) -> io::Result<Node>
    ensures { IfOk result (λ node. F.is_node file.now node) }
{
    match file.node()? {
        Some(node) => Ok(node),
        None => Err(not_regular()),
    }
}

/// Which file the file of a number is, where it is here.
fn node_among<F: DiskFile + Drop>(
    alloc: Global,
    folder: &str,
    journal: &F,
    slots: &[Option<F>],
    f: u32,
) -> Result<Option<Node>, EdgeFault>
    ensures told { IfOk result (λ node. IsToldAs F.is_node (file_among journal.now slots.now f) node) }
    ensures few { result ≢ Err TooMany }
{
    let Some(file) = file_among(journal, slots, f) else {
        return Ok(None);
    };
    match node_told(file) {
        Ok(node) => Ok(Some(node)),
        Err(cause) => Err(fault_of(alloc, folder, f, cause)),
    }
}

/// Which file each of the folder's files is.
fn nodes_of<F: DiskFile + Drop>(
    alloc: Global,
    folder: &str,
    journal: &F,
    slots: &[Option<F>],
) -> Result<Vec<Option<Node>>, EdgeFault>
    ensures all { IfOk result (λ nodes. length nodes.items ≡ 257) }
    ensures told { IfOk result (λ nodes. (f : ℕ) → f < 257 → IsToldAs F.is_node (file_among journal.now slots.now f) (slot_at nodes.items f)) }
    ensures few { result ≢ Err TooMany }
{
    let mut nodes = Vec::new(alloc);
    for f in 0..FILES {
        let node = node_among(alloc, folder, journal, slots, f)?;
        add(&mut nodes, node)?;
    }
    Ok(nodes)
}

/// The file of a number.
fn node_at(nodes: &[Option<Node>], k: usize) -> Option<Node>
    ensures { result ≡ slot_at nodes.now k }
{
    match nodes.get(k) {
        Some(node) => *node,
        None => None,
    }
}

/// Whether two names lead to one file.
fn are_one(nodes: &[Option<Node>], j: usize, k: usize) -> bool
    ensures { result ≡ false → IsApart (slot_at nodes.now j) (slot_at nodes.now k) }
{
    match (node_at(nodes, j), node_at(nodes, k)) {
        (Some(one), Some(other)) => one.is_same(other),
        _ => false,
    }
}

/// The first of the names in front of one that lead to its file.
fn same_before(nodes: &[Option<Node>], k: usize) -> Option<usize>
    ensures { result ≡ None → (j : ℕ) → j < k → IsApart (slot_at nodes.now j) (slot_at nodes.now k) }
{
    for j in 0..k {
        if are_one(nodes, j, k) {
            return Some(j);
        }
    }
    None
}

/// The first two names that lead to one file.
fn first_same(nodes: &[Option<Node>]) -> Option<(usize, usize)>
    ensures { result ≡ None → AreApart nodes.now }
{
    for k in 0..nodes.len() {
        if let Some(j) = same_before(nodes, k) {
            return Some((j, k));
        }
    }
    None
}

/// The path of the file of a number.
fn path_at(alloc: Global, folder: &str, k: usize) -> Result<String, AllocError> {
    path_of(alloc, folder, u32::try_from(k).unwrap_or(FILES))
}

/// The names of two files of a folder.
fn both_names(alloc: Global, folder: &str, j: usize, k: usize) -> Result<String, AllocError> {
    let one = path_at(alloc, folder, j)?;
    let other = path_at(alloc, folder, k)?;
    format!(in alloc; "{one} and {other}")
}

/// The fault of two names of one file.
fn one_file(alloc: Global, folder: &str, j: usize, k: usize) -> EdgeFault
    ensures { result ≢ TooMany }
{
    match both_names(alloc, folder, j, k) {
        Ok(names) => fault_at(
            alloc,
            names.as_str(),
            io::Error::new(ErrorKind::InvalidInput, "one file under two names"),
        ),
        Err(_) => EdgeFault::Memory,
    }
}

/// Refuses files of a folder of which two are one.
pub(crate) fn check_apart<F: DiskFile + Drop>(
    alloc: Global,
    folder: &str,
    journal: &F,
    slots: &[Option<F>],
) -> Result<(), EdgeFault>
    ensures apart { OnOk result (AreToldApart F.is_node (file_among journal.now slots.now)) }
    ensures few { result ≢ Err TooMany }
{
    let nodes = nodes_of(alloc, folder, journal, slots)?;
    match first_same(nodes.as_slice()) {
        None => Ok(()),
        Some((j, k)) => Err(one_file(alloc, folder, j, k)),
    }
}
