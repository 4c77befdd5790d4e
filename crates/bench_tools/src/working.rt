//! Work on the images of a cell by words.

use bk_text::{Host, Name, Part};
use cell_core::{Cell, CellFault};
use std::alloc::Global;
use std::io::Print;
use vnode_model::EntryState;

fn name_at(alloc: Global, words: &[String], at: usize) -> Result<Name, CellFault> {
    match words.get(at) {
        Some(word) => match Name::parse(alloc, word.as_bytes()) {
            Ok(name) => Ok(name),
            Err(_) => Err(CellFault::NoVolume),
        },
        None => Err(CellFault::NoVolume),
    }
}

fn number_at(words: &[String], at: usize) -> u32 {
    match words.get(at) {
        Some(word) => word.as_str().parse::<u32>().unwrap_or(0),
        None => 0,
    }
}

fn bytes_at(words: &[String], at: usize) -> &[u8] {
    match words.get(at) {
        Some(word) => word.as_bytes(),
        None => b"",
    }
}

fn host_at(alloc: Global, words: &[String], at: usize) -> Result<Host, CellFault> {
    match Host::parse(alloc, bytes_at(words, at)) {
        Ok(server) => Ok(server),
        Err(_) => Err(CellFault::NoVolume),
    }
}

fn part_at(alloc: Global, words: &[String], at: usize) -> Result<Part, CellFault> {
    match Part::parse(alloc, bytes_at(words, at)) {
        Ok(partition) => Ok(partition),
        Err(_) => Err(CellFault::NoVolume),
    }
}

fn list<R: Print, C: Cell>(rt: &R, cell: &mut C) -> Result<(), CellFault> {
    for i in 0..cell.count() {
        if i < cell.count() {
            let entry = cell.entry(i)?;
            let _ = rt.write_all(entry.name.bytes());
            let _ = rt.write_all(b" ");
            let _ = rt.write_all(entry.server.bytes());
            let _ = rt.write_all(b" ");
            let _ = rt.write_all(entry.partition.bytes());
            match entry.state {
                EntryState::Good { id, kind, latest } => {
                    let _ = println!(rt; " good {id} {kind} {latest}");
                }
                EntryState::Bad { at } => {
                    let _ = println!(rt; " bad {at}");
                }
            }
        }
    }
    Ok(())
}

/// Puts a volume again at another place.
fn shift<C: Cell>(alloc: Global, cell: &mut C, words: &[String]) -> Result<(), CellFault>
    requires { C.tells → ⊥ }
{
    let server = host_at(alloc, words, 1)?;
    let partition = part_at(alloc, words, 2)?;
    let i = number_at(words, 3);
    if i >= cell.count() {
        return Err(CellFault::NoVolume);
    }
    let taken = cell.take(i, 1)?;
    cell.put(&server, &partition, taken.volume)
}

fn create<C: Cell>(alloc: Global, cell: &mut C, words: &[String]) -> Result<(), CellFault> {
    let server = host_at(alloc, words, 1)?;
    let partition = part_at(alloc, words, 2)?;
    let name = name_at(alloc, words, 3)?;
    let _id = cell.create(&server, &partition, &name, number_at(words, 4))?;
    Ok(())
}

fn work<R: Print, C: Cell>(
    rt: &R,
    alloc: Global,
    cell: &mut C,
    words: &[String],
) -> Result<(), CellFault>
    requires { C.tells → ⊥ }
{
    match bytes_at(words, 0) {
        b"create" => create(alloc, cell, words),
        b"move" => shift(alloc, cell, words),
        b"list" => list(rt, cell),
        verb => {
            let name = name_at(alloc, words, 1)?;
            match verb {
                b"write" => {
                    let body = bytes_at(words, 4);
                    cell.write(&name, number_at(words, 2), body, number_at(words, 3))
                }
                b"rmvnode" => cell.remove_vnode(&name, number_at(words, 2), number_at(words, 3)),
                b"backup" => cell.backup(&name, number_at(words, 2)),
                _ => cell.remove(&name),
            }
        }
    }
}

/// Works by these words, and tells what is refused. The answer is the exit status.
pub fn act<R: Print, C: Cell>(rt: &R, alloc: Global, cell: &mut C, words: &[String]) -> u8
    requires { C.tells → ⊥ }
{
    match work(rt, alloc, cell, words) {
        Ok(()) => 0,
        Err(CellFault::Failed) => 5,
        Err(fault) => {
            let _ = println!(rt; "{fault}");
            1
        }
    }
}
