ghost use Rattle.std.specs.Prelude.{◌≡◌};

use crate::StorageError;
use std::marker::Model;

// Counts the calls of a storage or a disk for tests, and refuses those that were chosen.
#[derive(Drop)]
pub(crate) struct CallCount {
    made: u64,
    faults: u64,
    fails_in: u64,
    refuses_in: u64,
}

impl Model for CallCount {
    ghost use Rattle.image_access.specs.CallCount.{Counted};

    ghost Value = { Counted };

    ghost view = { λ c. record { made = c.made; faults = c.faults; fails_in = c.fails_in; refuses_in = c.refuses_in } };
}

impl CallCount {
    ghost use Rattle.std.specs.Prelude.{◌≡◌};
    ghost use Rattle.image_access.specs.CallCount.{uncounted, failing, refusing, Begins};

    pub(crate) fn new() -> Self
        ensures { result ≡ uncounted }
    {
        CallCount {
            made: 0,
            faults: 0,
            fails_in: 0,
            refuses_in: 0,
        }
    }

    pub(crate) fn made(&self) -> u64
        ensures { result ≡ self.now.made }
    {
        self.made
    }

    pub(crate) fn faults(&self) -> u64
        ensures { result ≡ self.now.faults }
    {
        self.faults
    }

    // Makes the n-th call from now on fail; 0 makes none fail.
    pub(crate) fn fail_at(&mut self, n: u64)
        ensures { self.new ≡ failing self.old n }
    {
        self.fails_in = n;
    }

    // Makes the n-th call from now on run out of memory; 0 makes none.
    pub(crate) fn refuse_memory_at(&mut self, n: u64)
        ensures { self.new ≡ refusing self.old n }
    {
        self.refuses_in = n;
    }

    // Begins a call: counts it, and refuses it if it was chosen.
    pub(crate) fn begin(&mut self) -> Result<(), StorageError>
        ensures { Begins self.old self.new result }
    {
        let fails = self.fails_in == 1;
        let refuses = self.refuses_in == 1;
        self.made = self.made.saturating_add(1);
        self.fails_in = self.fails_in.saturating_sub(1);
        self.refuses_in = self.refuses_in.saturating_sub(1);
        if fails {
            self.faults = self.faults.saturating_add(1);
            return Err(StorageError::Fault);
        }
        if refuses {
            return Err(StorageError::Memory);
        }
        Ok(())
    }
}
