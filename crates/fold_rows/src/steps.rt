//! What changes say, by the places of their words.

use crate::random::Random;

/// An entry of a set.
#[derive(Clone, Copy)]
pub struct Entry {
    pub server: u32,
    pub part: u32,
    pub pattern: u32,
}

/// A dump with up to two volumes, and from when on each was dumped. The second moment counts where there are two.
#[derive(Clone, Copy)]
pub struct Dump {
    pub id: u32,
    pub initial: u32,
    pub parent: u32,
    pub set: u32,
    pub level: u32,
    pub volumes: u32,
    pub froms: [u32; 2],
}

/// Which change lists a dump.
#[derive(Clone, Copy)]
pub enum Listing {
    Done1,
    Found1,
    Done,
    Found,
}

/// A change.
#[derive(Clone, Copy)]
pub enum Step {
    AddSet { set: u32 },
    DelSet { set: u32 },
    AddEntry { set: u32, entry: Entry },
    DelEntry { set: u32, number: u32 },
    AddLevel { level: u32, expiry: u32 },
    SetExpiry { level: u32, expiry: u32 },
    DelLevel { level: u32 },
    AddHost { host: u32, port: u16 },
    DelHost { port: u16 },
    Begin { id: u32 },
    Take { initial: u32 },
    List { listing: Listing, dump: Dump },
    Forget { id: u32 },
}

impl Step {
    /// The number of its kind, which is the first byte of the change.
    pub fn kind(&self) -> u8 {
        match self {
            Step::AddSet { .. } => 1,
            Step::DelSet { .. } => 2,
            Step::AddEntry { .. } => 3,
            Step::DelEntry { .. } => 4,
            Step::AddLevel { .. } => 5,
            Step::SetExpiry { .. } => 6,
            Step::DelLevel { .. } => 7,
            Step::AddHost { .. } => 8,
            Step::DelHost { .. } => 9,
            Step::Begin { .. } => 10,
            Step::Take { .. } => 11,
            Step::Forget { .. } => 13,
            Step::List { listing, .. } => match listing {
                Listing::Done1 => 12,
                Listing::Found1 => 14,
                Listing::Done => 15,
                Listing::Found => 16,
            },
        }
    }
}

/// A change of the volume sets or of the levels at random; most add something.
fn some_setting(random: &mut Random) -> Step {
    let kind = random.below(13);
    let set = random.below(3);
    let level = random.below(7);
    let small = random.below(4);
    match kind {
        0 | 1 => Step::AddSet { set },
        2 => Step::DelSet { set },
        3 | 4 | 5 => {
            let server = random.below(3);
            let part = random.below(3);
            let entry = Entry {
                server,
                part,
                pattern: small,
            };
            Step::AddEntry { set, entry }
        }
        6 | 7 => Step::DelEntry { set, number: small },
        8 | 9 | 10 => Step::AddLevel {
            level,
            expiry: small,
        },
        11 => Step::SetExpiry {
            level,
            expiry: small,
        },
        _ => Step::DelLevel { level },
    }
}

/// A dump at random.
fn some_dump(random: &mut Random) -> Dump {
    let id = random.below(9);
    let initial = random.below(9);
    let parent = random.below(4);
    let set = random.below(3);
    let level = random.below(7);
    let volumes = random.below(3);
    let first = random.below(2);
    let second = random.below(2);
    Dump {
        id,
        initial,
        parent,
        set,
        level,
        volumes,
        froms: [first, second],
    }
}

/// A change of the tape hosts or of the dumps at random.
fn some_event(random: &mut Random) -> Step {
    let kind = random.below(9);
    let host = if random.below(2) == 0 { 1 } else { 2 };
    let port = if random.below(2) == 0 { 0 } else { 58510 };
    let id = random.below(9);
    let listing = match kind {
        0 => return Step::AddHost { host, port },
        1 => return Step::DelHost { port },
        2 => return Step::Begin { id },
        3 => return Step::Take { initial: id },
        4 => return Step::Forget { id },
        5 => Listing::Done1,
        6 => Listing::Found1,
        7 => Listing::Done,
        _ => Listing::Found,
    };
    Step::List {
        listing,
        dump: some_dump(random),
    }
}

/// A change at random.
pub fn some_step(random: &mut Random) -> Step {
    if random.below(2) == 0 {
        some_setting(random)
    } else {
        some_event(random)
    }
}
