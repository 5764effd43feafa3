ghost use Rattle.std.specs.Prelude.{◌≡◌, ℕ, ◌+◌, ◌-◌, ◌*◌, ◌/◌, ◌^◌, ◌<◌, ◌≤◌, ◌↔◌, IsTrue};
ghost use Rattle.qcow2_metadata.specs.Bytes.{bits_of, has_bit};
ghost use Rattle.qcow2_metadata.specs.Entries.{host_offset as host_offset_of};
ghost use Rattle.qcow2_metadata.specs.Cover.{cover_of, sectors_bit};
ghost use Rattle.qcow2_metadata.specs.Header.{HeaderFields};
ghost use Rattle.qcow2_metadata.specs.Named.{named_by_cover};
ghost use Rattle.qcow2_metadata.specs.L2Mapping.{greatest_offset, IsInReach, HasAlignedHost, host_of, is_marked, named_run, run_has, old_data_run};

use crate::{ClusterCount, HostCluster, HostOffset, MAX_HOST_OFFSET};

/// The mapping of a guest cluster, as its L2 entry says. Host offsets are byte offsets in the file.
#[derive(Clone, Copy, Debug, PartialEq, Eq)]
pub enum L2Mapping {
    /// Data at a host offset. Copied means that the host cluster has refcount 1, so it may be written in place.
    Data { host: HostOffset, copied: bool },
    /// The cluster reads as zeros. It may keep a host cluster, copied or not.
    Zero { kept: Option<(HostOffset, bool)> },
    /// Compressed data: their host offset, and the number of 512-byte sectors that they touch.
    Compressed { host: HostOffset, sectors: u64 },
    /// Unmapped: the cluster reads as the backing disk, or as zeros without one.
    Uncovered,
}

pub(crate) const COMPRESSED: u64 = 1 << 62;

pub(crate) const COPIED: u64 = 1 << 63;

pub(crate) const ZERO: u64 = 1;

/// The host offset of an L1 or L2 entry.
pub fn host_offset(entry: u64) -> u64
    ensures value { result ≡ host_offset_of entry }
    ensures reach { result ≤ greatest_offset }
{
    entry & MAX_HOST_OFFSET
}

/// Whether an L1 or L2 entry is marked copied.
pub fn is_copied(entry: u64) -> bool
    ensures { result ≡ has_bit entry 63 }
{
    entry & COPIED != 0
}

fn is_compressed(entry: u64) -> bool
    ensures { result ≡ has_bit entry 62 }
{
    entry & COMPRESSED != 0
}

fn is_zero(entry: u64) -> bool
    ensures { result ≡ has_bit entry 0 }
{
    entry & ZERO != 0
}

/// The offset of compressed data, and the number of their sectors.
fn compressed_range(entry: u64, cluster_bits: u32) -> (u64, u64)
    requires low { 9 ≤ cluster_bits }
    requires high { cluster_bits ≤ 21 }
    ensures place { result.0 ≡ bits_of 0 (sectors_bit cluster_bits - 1) entry }
    ensures sectors { result.1 ≡ bits_of (sectors_bit cluster_bits) 61 entry + 1 }
    ensures near { (result.0 < 2 ^ 61) × (0 < result.1) × (result.1 ≤ 2 ^ 14) }
{
    let sectors_bit = 62 - (cluster_bits - 8);
    let place = entry & ((1 << sectors_bit) - 1);
    let further = (entry & (COMPRESSED - 1)) >> sectors_bit;
    (place, further + 1)
}

/// The clusters from that of one byte to that of another.
fn run_of_bytes(first: u64, last: u64, cluster_bits: u32) -> (HostCluster, ClusterCount)
    requires bits { cluster_bits < 64 }
    requires order { first ≤ last }
    requires near { last < 2 ^ 63 }
    ensures first { result.0 ≡ first / 2 ^ cluster_bits }
    ensures count { result.1 ≡ last / 2 ^ cluster_bits - first / 2 ^ cluster_bits + 1 }
{
    let first = HostOffset::new(first).cluster(cluster_bits);
    let last = HostOffset::new(last).cluster(cluster_bits);
    (first, last - first + ClusterCount::new(1))
}

impl L2Mapping {
    /// Decodes an L2 entry. `cluster_bits` is 9 to 21. Bit 0 means zeros only with `has_zero_bit`. A copied entry of offset 0 has a host
    /// cluster only with `data_is_external`.
    #[tactic(auto, unfolding(crate::specs::Cover::cover_of))]
    pub fn of_entry(
        entry: u64,
        cluster_bits: u32,
        has_zero_bit: bool,
        data_is_external: bool,
    ) -> L2Mapping
        requires low { 9 ≤ cluster_bits }
        requires high { cluster_bits ≤ 21 }
        ensures value { result ≡ cover_of cluster_bits has_zero_bit data_is_external entry }
        ensures reach { IsInReach result }
    {
        if is_compressed(entry) {
            let (place, sectors) = compressed_range(entry, cluster_bits);
            let host = HostOffset::new(place);
            return L2Mapping::Compressed { host, sectors };
        }
        let host = HostOffset::new(host_offset(entry));
        let copied = is_copied(entry);
        let has_host = host.value() != 0 || (data_is_external && copied);
        if has_zero_bit && is_zero(entry) {
            let kept = if has_host { Some((host, copied)) } else { None };
            L2Mapping::Zero { kept }
        } else if has_host {
            L2Mapping::Data { host, copied }
        } else {
            L2Mapping::Uncovered
        }
    }

    /// The host offset of data, or the one that a zero entry keeps.
    pub fn host(&self) -> Option<HostOffset>
        ensures { result ≡ host_of self.now }
    {
        match *self {
            L2Mapping::Data { host, .. } => Some(host),
            L2Mapping::Zero { kept } => {
                let (host, _) = kept?;
                Some(host)
            }
            L2Mapping::Compressed { .. } | L2Mapping::Uncovered => None,
        }
    }

    /// Whether the mapping has a host offset that is marked copied.
    pub fn is_marked_copied(&self) -> bool
        ensures { result ≡ is_marked self.now }
    {
        match *self {
            L2Mapping::Data { copied, .. } => copied,
            L2Mapping::Zero { kept } => match kept {
                Some((_, copied)) => copied,
                None => false,
            },
            L2Mapping::Compressed { .. } | L2Mapping::Uncovered => false,
        }
    }

    /// The host clusters that the mapping refers to: the first, and how many.
    pub fn host_clusters(self, cluster_bits: u32) -> Option<(HostCluster, ClusterCount)>
        requires bits { cluster_bits < 64 }
        requires reach { IsInReach self }
        ensures value { result ≡ named_run cluster_bits self }
        ensures named { (h : HeaderFields) (cluster : ℕ) → h.cluster_bits ≡ cluster_bits
            → named_by_cover h cluster self ≡ run_has result cluster }
    {
        match self {
            L2Mapping::Data { host, .. } => Some((
                host.cluster(cluster_bits),
                ClusterCount::new(1),
            )),
            L2Mapping::Zero { kept } => {
                let (host, _) = kept?;
                Some((host.cluster(cluster_bits), ClusterCount::new(1)))
            }
            L2Mapping::Compressed { host, sectors } => {
                let first = host.value();
                let last = (first / 512 + sectors) * 512 - 1;
                Some(run_of_bytes(first, last, cluster_bits))
            }
            L2Mapping::Uncovered => None,
        }
    }

    /// The host clusters that lose a reference when another mapping replaces this one.
    pub(crate) fn dropped_for(
        self,
        new: L2Mapping,
        cluster_bits: u32,
    ) -> Option<(HostCluster, ClusterCount)>
        requires bits { cluster_bits < 64 }
        requires reach { IsInReach self }
        requires new_reach { IsInReach new }
        ensures { result ≡ old_data_run cluster_bits self new }
    {
        let (first, count) = self.host_clusters(cluster_bits)?;
        match new.host_clusters(cluster_bits) {
            Some((new_first, new_count)) if new_first == first && new_count == count => None,
            _ => Some((first, count)),
        }
    }

    /// Whether the host offset of data, or the one that a zero entry keeps, is aligned.
    pub(crate) fn has_aligned_host(&self, cluster_bits: u32) -> bool
        requires { cluster_bits < 64 }
        ensures { IsTrue result ↔ HasAlignedHost cluster_bits self.now }
    {
        match *self {
            L2Mapping::Data { host, .. } => host.in_cluster_offset(cluster_bits) == 0,
            L2Mapping::Zero { kept } => match kept {
                Some((host, _)) => host.in_cluster_offset(cluster_bits) == 0,
                None => true,
            },
            L2Mapping::Compressed { .. } | L2Mapping::Uncovered => true,
        }
    }
}
