//! The ranges of an image's disk that its breaches touch.
ghost use Rattle.std.specs.Prelude.{◌≡◌, ◌*◌, ◌/◌, ◌≤◌, ◌^◌, IfSome};
ghost use Rattle.image_access.specs.Moments.{ContentsStay};
ghost use Rattle.qcow2_metadata.specs.Header.{IsInRange, IsWithinLimits};
ghost use Rattle.qcow2_metadata.specs.L2Mapping.{IsInReach};
ghost use Rattle.qcow2_metadata.specs.TableBytes.{IsClusterBits};
ghost use Rattle.qimg_tools.specs.Touched.{LiesOn};

use image_access::Storage;
use qcow2_metadata::{HeaderFields, L2Mapping, MetadataError, entry_at, host_offset};
use qcow2_session::{Breach, Kind};
use std::alloc::{AllocError, Global};
use std::collections::BTreeMap;

/// The greatest number of ranges that are reported for one breach.
const MOST: usize = 16;

/// A range of a disk: where it begins, and how long it is, in bytes.
#[derive(Clone, Copy, PartialEq, Eq)]
pub struct Range {
    /// The first byte of the range.
    pub start: u64,
    /// The number of bytes.
    pub length: u64,
}

/// The ranges that a breach touches, in rising order.
#[derive(Drop)]
pub struct Ranges {
    /// The first ranges.
    pub first: Vec<Range>,
    /// Whether there are more.
    pub has_more: bool,
}

/// The ranges of each breach of an image.
#[derive(Drop)]
pub struct Touched {
    clusters: BTreeMap<u64, Ranges>,
    tables: BTreeMap<u64, Ranges>,
    data: BTreeMap<u64, Ranges>,
    whole: Ranges,
}

// What is known of an image while its tables are read.
#[derive(Clone, Copy)]
struct Layout {
    bits: u32,
    size: u64,
    has_zero_bit: bool,
    data_is_external: bool,
}

/// The ranges of a disk that depend on what its breaches name, by the L1 table and the L2 tables of an image, which is only read. An L2 table that
/// more than 16 entries name is followed only from the first 16. Refused as the L1 table is, and may be refused `Memory` or `Storage` during the
/// work.
pub fn touched_by<S: Storage>(
    alloc: Global,
    storage: &mut S,
    header: &HeaderFields,
    breaches: &[Breach],
) -> Result<Touched, MetadataError>
    requires in_range { IsInRange header.now }
    requires within_limits { IsWithinLimits header.now }
    ensures reading { ContentsStay (S.view storage.old) (S.view storage.new) }
{
    let layout = Layout {
        bits: header.cluster_bits,
        size: header.size,
        has_zero_bit: header.version == 3,
        data_is_external: header.incompatible != 0,
    };
    let mut touched = Touched::wanted(alloc, breaches, layout)?;
    if breaches.is_empty() {
        return Ok(touched);
    }
    let l1 = header.load_l1_entries(alloc, storage)?;
    touched.add_l1_table(layout, header.l1_offset, l1.len() / 8)?;
    touched.add_l2_tables(alloc, storage, layout, &l1)?;
    Ok(touched)
}

impl Touched {
    // No ranges yet, for each place that a breach names.
    fn wanted(alloc: Global, breaches: &[Breach], layout: Layout) -> Result<Touched, AllocError> {
        let mut touched = Touched {
            clusters: BTreeMap::new(alloc),
            tables: BTreeMap::new(alloc),
            data: BTreeMap::new(alloc),
            whole: Ranges::none(alloc),
        };
        touched.whole.add(range_of(layout.size, 0, layout.size))?;
        for breach in breaches {
            touched.want(alloc, breach)?;
        }
        Ok(touched)
    }

    fn want(&mut self, alloc: Global, breach: &Breach) -> Result<(), AllocError> {
        match *breach {
            Breach::Under { cluster, .. }
            | Breach::Shared { cluster, .. }
            | Breach::Copied { cluster, .. } => want(alloc, &mut self.clusters, cluster),
            Breach::Unaligned {
                kind: Kind::L2,
                offset,
            } => want(alloc, &mut self.tables, offset),
            Breach::Unaligned {
                kind: Kind::Data,
                offset,
            } => want(alloc, &mut self.data, offset),
            _ => Ok(()),
        }
    }

    /// The ranges that a breach touches; None if it touches no bytes of the disk.
    pub fn of(&self, breach: &Breach) -> Option<&Ranges> {
        match *breach {
            Breach::Under { cluster, .. }
            | Breach::Shared { cluster, .. }
            | Breach::Copied { cluster, .. } => self.clusters.get(&cluster),
            Breach::Unaligned { kind, offset } => match kind {
                Kind::L1 => Some(&self.whole),
                Kind::L2 => self.tables.get(&offset),
                Kind::Data => self.data.get(&offset),
                Kind::Reftable | Kind::Refblock => None,
            },
            Breach::Snapshots { .. } | Breach::External => None,
        }
    }

    // Adds the ranges that each cluster of the L1 table maps, by its entries.
    fn add_l1_table(
        &mut self,
        layout: Layout,
        offset: u64,
        entries: usize,
    ) -> Result<(), AllocError>
        requires bits { IsClusterBits layout.bits }
    {
        let table = covered_by_table(layout.bits);
        let per_cluster = ((1u64 << layout.bits) / 8).max(1);
        let first = offset >> layout.bits;
        for index in 0..(entries as u64).div_ceil(per_cluster) {
            let length = table.saturating_mul(per_cluster);
            let range = range_of(layout.size, index.saturating_mul(length), length);
            add(&mut self.clusters, first.saturating_add(index), range)?;
        }
        Ok(())
    }

    // Adds the ranges that the L2 tables map, and those that their entries map.
    fn add_l2_tables<S: Storage>(
        &mut self,
        alloc: Global,
        storage: &mut S,
        layout: Layout,
        l1: &[u8],
    ) -> Result<(), MetadataError>
        requires bits { IsClusterBits layout.bits }
        ensures reading { ContentsStay (S.view storage.old) (S.view storage.new) }
    {
        let mut known = BTreeMap::new(alloc);
        let mut table = vec![in alloc; 0; 1usize << layout.bits]?;
        for index in 0..l1.len() / 8 {
            let place = host_offset(entry_at(l1, index));
            let start = (index as u64).saturating_mul(covered_by_table(layout.bits));
            if place != 0 && start < layout.size {
                self.add_table(layout, place, start)?;
                if is_followed(&mut known, place)? {
                    storage.read(place, &mut table)?;
                    self.add_entries(layout, &table, start)?;
                }
            }
        }
        Ok(())
    }

    // Adds the range that an L2 table maps. Its first entry maps the given offset.
    fn add_table(&mut self, layout: Layout, place: u64, start: u64) -> Result<(), AllocError>
        requires bits { IsClusterBits layout.bits }
    {
        let range = range_of(layout.size, start, covered_by_table(layout.bits));
        add(&mut self.tables, place, range)?;
        add(&mut self.clusters, place >> layout.bits, range)
    }

    // Adds the ranges that the entries of an L2 table map. The first entry maps the given offset.
    fn add_entries(&mut self, layout: Layout, table: &[u8], start: u64) -> Result<(), AllocError>
        requires bits { IsClusterBits layout.bits }
    {
        let cluster = 1u64 << layout.bits;
        let mut at = start;
        for index in 0..table.len() / 8 {
            let mapping = L2Mapping::of_entry(
                entry_at(table, index),
                layout.bits,
                layout.has_zero_bit,
                layout.data_is_external,
            );
            if !layout.data_is_external {
                self.add_mapping(layout, mapping, range_of(layout.size, at, cluster))?;
            }
            at = at.saturating_add(cluster);
        }
        Ok(())
    }

    // Adds the range of a guest cluster to what its mapping refers to.
    fn add_mapping(
        &mut self,
        layout: Layout,
        mapping: L2Mapping,
        range: Option<Range>,
    ) -> Result<(), AllocError>
        requires bits { IsClusterBits layout.bits }
        requires reach { IsInReach mapping }
    {
        if let Some(host) = mapping.host() {
            add(&mut self.data, host.value(), range)?;
        }
        let Some((first, count)) = mapping.host_clusters(layout.bits) else {
            return Ok(());
        };
        for further in 0..count.value() {
            add(
                &mut self.clusters,
                first.value().saturating_add(further),
                range,
            )?;
        }
        Ok(())
    }
}

impl Ranges {
    fn none(alloc: Global) -> Ranges {
        Ranges {
            first: Vec::new(alloc),
            has_more: false,
        }
    }

    // Adds a range, if there is one, after the others.
    fn add(&mut self, range: Option<Range>) -> Result<(), AllocError> {
        let Some(range) = range else {
            return Ok(());
        };
        if let Some(last) = self.first.last_mut() {
            if *last == range {
                return Ok(());
            }
            if last.start.checked_add(last.length) == Some(range.start) {
                last.length = last.length.saturating_add(range.length);
                return Ok(());
            }
        }
        if self.first.len() >= MOST {
            self.has_more = true;
            return Ok(());
        }
        self.first.push(range)?;
        Ok(())
    }
}

// Makes an empty list of ranges, if there is none yet.
fn want(alloc: Global, named: &mut BTreeMap<u64, Ranges>, place: u64) -> Result<(), AllocError> {
    named.entry(place)?.or_insert(Ranges::none(alloc));
    Ok(())
}

fn add(
    named: &mut BTreeMap<u64, Ranges>,
    place: u64,
    range: Option<Range>,
) -> Result<(), AllocError> {
    match named.get_mut(&place) {
        Some(ranges) => ranges.add(range),
        None => Ok(()),
    }
}

// Whether a table may be read once more. Counts the reads.
fn is_followed(known: &mut BTreeMap<u64, usize>, place: u64) -> Result<bool, AllocError> {
    let times = known.entry(place)?.or_insert(0);
    *times = times.saturating_add(1);
    Ok(*times <= MOST)
}

// How many bytes of the disk an L2 table covers.
fn covered_by_table(bits: u32) -> u64
    requires { bits ≤ 21 }
    ensures { result ≡ 2 ^ bits * 2 ^ bits / 8 }
{
    let cluster = 1u64 << bits;
    cluster * cluster / 8
}

// The part of a range that lies on a disk of this size; None if there is none.
fn range_of(size: u64, start: u64, length: u64) -> Option<Range>
    ensures { IfSome result (LiesOn size) }
{
    if start >= size || length == 0 {
        return None;
    }
    Some(Range {
        start,
        length: length.min(size - start),
    })
}
