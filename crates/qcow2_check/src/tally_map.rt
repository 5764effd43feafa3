//! The tallies of all clusters, in little memory.

ghost use Rattle.std.specs.Prelude.{ℕ, ◌≡◌, ◌≢◌, OnOk, OnErr, IfSome, false};
ghost use Rattle.qcow2_check.specs.Tallies.{tally_in, no_tally, small_in, large_in, widened, is_blank};

use crate::tally::Tally;
use std::alloc::{AllocError, Global};
use std::collections::BTreeMap;

/// The number of tallies that the array may have from the start.
const FIRST_ROOM: u64 = 4096;

/// How many more tallies the array may have after each change.
const MORE_ROOM: u64 = 3;

/// A tally of numbers below 256 without a refcount, in three bytes.
#[derive(Clone, Copy)]
pub(crate) struct SmallTally {
    pub(crate) named: u8,
    pub(crate) for_tables: u8,
    pub(crate) marked: u8,
}

impl SmallTally {
    /// No tally.
    const BLANK: SmallTally = SmallTally {
        named: 0,
        for_tables: 0,
        marked: 0,
    };

    /// The tally in three bytes; none if the cluster has no references, a refcount, or greater numbers.
    fn of(tally: &Tally) -> Option<SmallTally>
        ensures value { IfSome result (λ s. widened s ≡ tally.now) }
        ensures some { IfSome result (λ s. is_blank s ≡ false) }
    {
        let largest = tally.named.max(tally.for_tables).max(tally.marked);
        if largest > 255 || tally.named == 0 || tally.count != 0 {
            return None;
        }
        Some(SmallTally {
            named: tally.named as u8,
            for_tables: tally.for_tables as u8,
            marked: tally.marked as u8,
        })
    }

    fn is_blank(&self) -> bool
        ensures { result ≡ is_blank self.now }
    {
        self.named == 0
    }

    fn widened(&self) -> Tally
        ensures { result ≡ widened self.now }
    {
        Tally {
            named: self.named as u64,
            for_tables: self.for_tables as u64,
            marked: self.marked as u64,
            count: 0,
        }
    }
}

/// The tally of each cluster. Small tallies of low clusters are in an array of three bytes for each cluster, all others in a map.
#[derive(Drop)]
pub(crate) struct TallyMap {
    pub(crate) small: Vec<SmallTally>,
    pub(crate) large: BTreeMap<u64, Tally>,
    /// The number of tallies that the array may have. This limit grows with the number of changes, so that a single high cluster does not need a
    /// long array.
    pub(crate) room: u64,
}

impl TallyMap {
    /// No tallies. The array may have `more` of them from the start.
    pub(crate) fn new(alloc: Global, more: u64) -> Self
        ensures { (q : ℕ) → tally_in result q ≡ no_tally }
    {
        TallyMap {
            small: Vec::new(alloc),
            large: BTreeMap::new(alloc),
            room: FIRST_ROOM.saturating_add(more),
        }
    }

    fn small_tally(&self, cluster: u64) -> SmallTally
        ensures { result ≡ small_in self.now cluster }
    {
        self.small
            .get(cluster as usize)
            .copied()
            .unwrap_or(SmallTally::BLANK)
    }

    fn large_tally(&self, cluster: u64) -> Tally
        ensures { result ≡ large_in self.now cluster }
    {
        self.large.get(&cluster).copied().unwrap_or(Tally::NONE)
    }

    /// The tally of a cluster.
    pub(crate) fn get(&self, cluster: u64) -> Tally
        ensures { result ≡ tally_in self.now cluster }
    {
        let small = self.small_tally(cluster);
        if small.is_blank() {
            self.large_tally(cluster)
        } else {
            small.widened()
        }
    }

    /// Makes room for a cluster in the array, if the array may be that long.
    fn make_room(&mut self, cluster: u64) -> Result<(), AllocError>
        ensures { (q : ℕ) → tally_in self.new q ≡ tally_in self.old q }
    {
        self.room = self.room.saturating_add(MORE_ROOM);
        let at = cluster as usize;
        if cluster < self.room && self.small.len() <= at {
            self.small.resize(at + 1, SmallTally::BLANK)?;
        }
        Ok(())
    }

    /// Puts a tally into the map.
    fn set_large(&mut self, cluster: u64, tally: Tally) -> Result<(), AllocError>
        ensures sets { OnOk result (tally_in self.new cluster ≡ tally) }
        ensures others { (q : ℕ) → q ≢ cluster → tally_in self.new q ≡ tally_in self.old q }
        ensures err { OnErr result (tally_in self.new cluster ≡ tally_in self.old cluster) }
    {
        self.large.insert(cluster, tally)?;
        let at = cluster as usize;
        if at < self.small.len() {
            self.small[at] = SmallTally::BLANK;
        }
        Ok(())
    }

    /// Sets the tally of a cluster.
    pub(crate) fn set(&mut self, cluster: u64, tally: Tally) -> Result<(), AllocError>
        ensures sets { OnOk result (tally_in self.new cluster ≡ tally) }
        ensures others { (q : ℕ) → q ≢ cluster → tally_in self.new q ≡ tally_in self.old q }
        ensures err { OnErr result (tally_in self.new cluster ≡ tally_in self.old cluster) }
    {
        self.make_room(cluster)?;
        let at = cluster as usize;
        match SmallTally::of(&tally) {
            Some(small) if at < self.small.len() => {
                self.small[at] = small;
                Ok(())
            }
            _ => self.set_large(cluster, tally),
        }
    }
}
