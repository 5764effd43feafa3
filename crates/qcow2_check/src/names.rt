//! References to the clusters of an image.

ghost use Rattle.std.specs.Prelude.{ℕ, ◌≡◌, ◌+◌, ◌-◌, ◌*◌, ◌<◌, ◌≤◌, ◌^◌, ◌&&◌, nat_le, nat_lt, OnOk, OnErr};
ghost use Rattle.qcow2_metadata.specs.Bytes.{one_if};
ghost use Rattle.qcow2_check.specs.Tallies.{tally_in, no_tally, AddsToTally, AddsTimes, TalliesGrow, TalliesWithin64Bits, IsSmall};

use crate::tally::Tally;
use crate::tally_map::TallyMap;
use std::alloc::{AllocError, Global};

/// How many references each cluster has.
#[derive(Drop)]
pub(crate) struct Names {
    pub(crate) clusters: TallyMap,
    pub(crate) total: u64,
    ghost bounded: { IsSmall clusters total },
    ghost near: { TalliesWithin64Bits clusters },
}

/// This number if the test passes, otherwise 0.
fn times_if(times: u64, is: bool) -> u64
    ensures { result ≡ times * one_if is }
{
    if is { times } else { 0 }
}

impl Names {
    /// No references. An array may have the tallies of `more` clusters from the start.
    pub(crate) fn new(alloc: Global, more: u64) -> Self
        ensures none { (q : ℕ) → tally_in result.clusters q ≡ no_tally }
        ensures total { result.total ≡ 0 }
    {
        Names {
            clusters: TallyMap::new(alloc, more),
            total: 0,
        }
    }

    /// Adds a reference to a cluster.
    pub(crate) fn add(
        &mut self,
        cluster: u64,
        for_table: bool,
        marked: bool,
    ) -> Result<(), AllocError>
        requires room { self.old.total < 2 ^ 62 }
        ensures adds { OnOk result (AddsToTally self.old.clusters self.new.clusters cluster for_table marked) }
        ensures total { OnOk result (self.new.total ≡ self.old.total + 1) }
    {
        self.add_times(cluster, 1, for_table, marked)
    }

    /// Adds this many references to a cluster.
    pub(crate) fn add_times(
        &mut self,
        cluster: u64,
        times: u64,
        for_table: bool,
        marked: bool,
    ) -> Result<(), AllocError>
        requires room { self.old.total < 2 ^ 62 }
        requires few { times ≤ 2 ^ 22 }
        ensures adds { OnOk result (AddsTimes self.old.clusters self.new.clusters cluster times for_table marked) }
        ensures total { OnOk result (self.new.total ≡ self.old.total + times) }
    {
        let tally = self.clusters.get(cluster);
        let more = Tally {
            named: tally.named + times,
            for_tables: tally.for_tables + times_if(times, for_table),
            marked: tally.marked + times_if(times, marked),
            count: tally.count,
        };
        self.clusters.set(cluster, more)?;
        self.total += times;
        Ok(())
    }

    /// Adds this many references to each cluster from the first to the last.
    pub(crate) fn add_range(&mut self, first: u64, last: u64, times: u64) -> Result<(), AllocError>
        requires some { first ≤ last }
        requires narrow { last < first + 2 ^ 15 }
        requires end { last < 2 ^ 63 }
        requires few { times ≤ 2 ^ 22 }
        requires room { self.old.total < 2 ^ 61 }
        ensures grows { OnOk result (TalliesGrow self.old.clusters self.new.clusters
            (λ q. times * one_if (nat_le first q && nat_le q last)) (λ _. 0) (λ _. 0)) }
        ensures total { OnOk result (self.new.total ≤ self.old.total + times * 2 ^ 15) }
    {
        for cluster in first..last + 1 {
            self.add_times(cluster, times, false, false)?;
        }
        Ok(())
    }

    /// Adds a reference, as a table's, to each of n clusters from a first one on.
    pub(crate) fn add_tables(&mut self, first: u64, n: u64) -> Result<(), AllocError>
        requires few { n ≤ 2 ^ 32 }
        requires end { first < 2 ^ 62 }
        requires room { self.old.total < 2 ^ 61 }
        ensures grows { OnOk result (TalliesGrow self.old.clusters self.new.clusters
            (λ q. one_if (nat_le first q && nat_lt q (first + n))) (λ q. one_if (nat_le first q && nat_lt q (first + n))) (λ _. 0)) }
        ensures total { OnOk result (self.new.total ≤ self.old.total + n) }
    {
        for cluster in first..first + n {
            self.add(cluster, true, false)?;
        }
        Ok(())
    }
}
