//! What a program opens at its start: the first that fails is told, with its exit status.

use host_edge::{Doors, EdgeFault, Place, open_all};

/// Which of the lock, the media, the cell and the configuration fail, and whether for want of memory.
#[derive(Drop)]
struct Fake {
    fail: [bool; 4],
    memory: bool,
}

impl Fake {
    fn answer(&self, fails: bool) -> Result<(), EdgeFault> {
        if !fails {
            return Ok(());
        }
        if self.memory {
            Err(EdgeFault::Memory)
        } else {
            Err(EdgeFault::TooMany)
        }
    }
}

impl Doors for Fake {
    type Lock = ();

    type Media = ();

    type Cell = ();

    ghost lock_answers = { λ doors answer. Unit {0} };

    ghost media_answers = { λ doors answer. Unit {0} };

    ghost cell_answers = { λ doors answer. Unit {0} };

    ghost config_answers = { λ doors answer. Unit {0} };

    fn lock(&self) -> Result<(), EdgeFault> {
        self.answer(self.fail[0])
    }

    fn media(&self) -> Result<(), EdgeFault> {
        self.answer(self.fail[1])
    }

    fn cell(&self) -> Result<(), EdgeFault> {
        self.answer(self.fail[2])
    }

    fn config(&self) -> Result<Vec<u8>, EdgeFault> {
        match self.answer(self.fail[3]) {
            Ok(()) => Err(EdgeFault::Memory),
            Err(fault) => Err(fault),
        }
    }
}

/// Whether opening stops at this place with this status.
fn stops(fail: [bool; 4], memory: bool, at: Place, number: u8) -> bool {
    match open_all(&Fake { fail, memory }) {
        Ok(_) => false,
        Err(unopened) => unopened.at == at && unopened.number() == number,
    }
}

#[test]
fn the_first_that_fails_is_told(rt: HostRuntime) {
    assert!(&rt; stops([true, true, true, true], false, Place::Media, 4));
    assert!(&rt; stops([false, true, true, true], false, Place::Media, 4));
    assert!(&rt; stops([false, false, true, true], false, Place::Cell, 5));
    assert!(&rt; stops([false, false, false, true], false, Place::Config, 11));
    assert!(&rt; stops([false, false, false, false], false, Place::Config, 6));
    assert!(&rt; stops([false, false, true, true], true, Place::Cell, 6));
    assert!(&rt; stops([true, false, false, false], true, Place::Media, 6));
}
