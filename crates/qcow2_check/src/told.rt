//! Lists of tallies.

ghost use Rattle.std.specs.Prelude.{◌≡◌, ◌++◌, ◌^◌, ◌<◌, ◌≤◌, OnOk, IfOk, length};
ghost use Rattle.std.specs.BTreeMap.{IsOrdered};
ghost use Rattle.std.specs.Ordering.{nat_cmp};
ghost use Rattle.qcow2_check.specs.Tallies.{tally_in, TalliesWithin64Bits};
ghost use Rattle.qcow2_check.specs.Counted.{count_in, with_count};
ghost use Rattle.qcow2_check.specs.Lines.{lines, takes, shown, shown_entries, is_breached, numbered, entries_past};

use crate::kept::Counts;
use crate::tally::Tally;
use crate::tally_map::TallyMap;
use std::alloc::{AllocError, Global};

/// Which tallies a list contains.
#[derive(Clone, Copy)]
pub(crate) enum Choice<'a> {
    /// The tallies of clusters with a breach, by their refcounts.
    Breached(&'a Counts),
    /// The tallies of clusters with references.
    Named,
}

/// Whether a cluster with this tally has a breach.
fn is_breached(tally: &Tally) -> bool
    ensures { result ≡ is_breached tally.now }
{
    let is_under = tally.count < tally.named;
    let is_shared = tally.for_tables != 0 && 1 < tally.named;
    let is_miscopied = tally.marked != 0 && !(tally.named == 1 && tally.count == 1);
    is_under || is_shared || is_miscopied
}

/// The tally of a cluster, with the refcount if the cluster has a reference or a copied mark.
fn with_count(counts: &Counts, cluster: u64, tally: &Tally) -> Tally
    ensures { result ≡ with_count (count_in counts.now cluster) tally.now }
{
    if tally.named == 0 && tally.marked == 0 {
        return Tally::NONE;
    }
    Tally {
        named: tally.named,
        for_tables: tally.for_tables,
        marked: tally.marked,
        count: counts.count(cluster),
    }
}

impl Choice<'_> {
    /// The tally of a cluster, as the list shows it.
    fn shown(self, cluster: u64, tally: &Tally) -> Tally
        ensures { result ≡ shown self.entry cluster tally.now }
    {
        match self {
            Choice::Breached(counts) => with_count(counts, cluster, tally),
            Choice::Named => *tally,
        }
    }

    fn takes(self, tally: &Tally) -> bool
        ensures { result ≡ takes self.entry tally.now }
    {
        match self {
            Choice::Breached(_) => is_breached(tally),
            Choice::Named => tally.named != 0,
        }
    }
}

impl TallyMap {
    /// The chosen tallies in the array, by rising number.
    fn chosen_of_array(
        &self,
        alloc: Global,
        choice: Choice<'_>,
    ) -> Result<Vec<(u64, Tally)>, AllocError>
        ensures chosen { IfOk result (λ chosen. chosen.items
            ≡ lines (length self.now.small.items) (takes choice.entry) numbered
            (λ q. shown choice.entry q (tally_in self.now q))) }
        ensures short { length self.now.small.items < 2 ^ 64 }
    {
        let mut chosen = Vec::new(alloc);
        for cluster in 0..self.small.len() {
            let tally = choice.shown(cluster as u64, &self.get(cluster as u64));
            if choice.takes(&tally) {
                chosen.push((cluster as u64, tally))?;
            }
        }
        Ok(chosen)
    }

    /// The chosen tallies past the array, by rising number.
    fn add_chosen_of_map(
        &self,
        chosen: &mut Vec<(u64, Tally)>,
        choice: Choice<'_>,
    ) -> Result<(), AllocError>
        ensures sorted { IsOrdered nat_cmp self.now.large }
        ensures adds { OnOk result (chosen.new.items ≡ chosen.old.items
            ++ entries_past (length self.now.small.items) (takes choice.entry) (shown_entries choice.entry self.now.large.entries)) }
    {
        let first = self.small.len() as u64;
        for (cluster, tally) in &self.large {
            if *cluster < first {
                continue;
            }
            let tally = choice.shown(*cluster, tally);
            if choice.takes(&tally) {
                chosen.push((*cluster, tally))?;
            }
        }
        Ok(())
    }

    /// The chosen tallies, by rising number.
    pub(crate) fn chosen(
        &self,
        alloc: Global,
        choice: Choice<'_>,
    ) -> Result<Vec<(u64, Tally)>, AllocError>
        requires near { TalliesWithin64Bits self.now }
        ensures { IfOk result (λ chosen. chosen.items
            ≡ lines (2 ^ 64) (takes choice.entry) numbered (λ q. shown choice.entry q (tally_in self.now q))) }
    {
        let mut chosen = self.chosen_of_array(alloc, choice)?;
        self.add_chosen_of_map(&mut chosen, choice)?;
        Ok(chosen)
    }
}
