//! The leaked clusters of an image.

ghost use Rattle.std.specs.Prelude.{◌≡◌, ◌^◌, ◌≤◌, ◌↔◌, IsTrue, [], length};
ghost use Rattle.qcow2_check.specs.Counted.{counted_in};
ghost use Rattle.qcow2_check.specs.Leaked.{IsNextLeak, leak_of_count};
ghost use Rattle.qcow2_check.specs.Report.{leak_lines_of};

use crate::kept::Counts;
use crate::names::Names;
use crate::report::Leak;
use crate::tally_map::TallyMap;
use std::marker::Model;

/// The clusters with a higher refcount than references, by rising number. A leak is found when it is asked for, from the references and the
/// refcounts of all clusters. So a refblock that the reftable refers to many times takes no memory for its leaks.
#[derive(Drop)]
pub struct Leaks {
    names: TallyMap,
    counts: Counts,
}

impl Model for Leaks {
    ghost use Rattle.std.specs.Prelude.{List};
    ghost use Rattle.qcow2_check.specs.declared.report.Leak.{Leak};
    ghost use Rattle.qcow2_check.specs.Counted.{counted_in};
    ghost use Rattle.qcow2_check.specs.Report.{leak_lines_of};

    ghost Value = { List Leak };

    ghost view = { λ leaks. leak_lines_of (counted_in leaks.names leaks.counts) };
}

/// The leaked clusters from one on.
#[derive(Drop)]
pub struct LeakIter<'a> {
    names: &'a TallyMap,
    counts: &'a Counts,
    from: u64,
}

impl<'a> Model for LeakIter<'a> {
    ghost use Rattle.std.specs.Prelude.{List};
    ghost use Rattle.qcow2_check.specs.declared.report.Leak.{Leak};
    ghost use Rattle.qcow2_check.specs.Leaked.{leaks_from};

    ghost Value = { List Leak };

    ghost view = { λ iter. leaks_from iter.names.now iter.counts.now iter.from };
}

/// The leak of a cluster with this refcount, if it is leaked.
fn leak_of(names: &TallyMap, cluster: u64, count: u64) -> Option<Leak>
    ensures { result ≡ leak_of_count names.now cluster count }
{
    let named = names.get(cluster).named;
    if named < count {
        Some(Leak {
            cluster,
            count,
            named,
        })
    } else {
        None
    }
}

/// The first leaked cluster from this one on.
fn next_leak(names: &TallyMap, counts: &Counts, from: u64) -> Option<Leak>
    ensures { IsNextLeak names.now counts.now from result }
{
    let end = counts.end();
    let mut at = from;
    while at < end {
        let (cluster, count) = counts.next_counted(at);
        if let Some(leak) = leak_of(names, cluster, count) {
            return Some(leak);
        }
        at = cluster + 1;
    }
    None
}

impl Leaks {
    pub(crate) fn new(names: Names, counts: Counts) -> Leaks
        ensures { result ≡ leak_lines_of (counted_in names.clusters counts) }
    {
        Leaks {
            names: names.clusters,
            counts,
        }
    }

    /// The leaks, by rising number of their clusters.
    pub fn iter(&self) -> LeakIter<'_>
        ensures all { result ≡ self.now }
        ensures few { length self.now ≤ 2 ^ 44 }
    {
        LeakIter {
            names: &self.names,
            counts: &self.counts,
            from: 0,
        }
    }

    /// The number of leaked clusters, which each call counts again.
    pub fn len(&self) -> usize
        ensures { result ≡ length self.now }
    {
        self.iter().count()
    }

    /// Whether no cluster is leaked.
    pub fn is_empty(&self) -> bool
        ensures { IsTrue result ↔ (self.now ≡ []) }
    {
        self.iter().next().is_none()
    }
}

impl Iterator for LeakIter<'_> {
    ghost use Rattle.std.specs.Iterator.{YieldsFirst, item_count};

    type Item = Leak;

    ghost next_gives = { YieldsFirst (λ rest. rest) };

    ghost remaining = { item_count (λ rest. rest) };

    fn next(&mut self) -> Option<Leak> {
        let leak = next_leak(self.names, self.counts, self.from)?;
        self.from = leak.cluster + 1;
        Some(leak)
    }
}
