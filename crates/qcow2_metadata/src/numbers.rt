ghost use Rattle.std.specs.Prelude.{◌≡◌, ◌≢◌, ◌+◌, ◌-◌, ◌*◌, ◌/◌, ◌%◌, ◌^◌, ◌<◌, ◌≤◌, IfNone, IfSome};

use std::marker::Model;
use std::ops::{Add, Sub};

/// The number of entries of an L2 table.
fn entries_per_cluster(cluster_bits: u32) -> u64
    requires low { 3 ≤ cluster_bits }
    requires high { cluster_bits < 64 }
    ensures value { result ≡ 2 ^ cluster_bits / 8 }
    ensures some { 0 < result }
{
    (1 << cluster_bits) / 8
}

/// The offset of a byte in its cluster.
fn in_cluster(bytes: u64, cluster_bits: u32) -> u64
    requires { cluster_bits < 64 }
    ensures { result ≡ bytes % 2 ^ cluster_bits }
{
    bytes % (1 << cluster_bits)
}

/// The cluster that begins at a byte, if one does.
fn checked_index(bytes: u64, cluster_bits: u32) -> Option<u64>
    requires { cluster_bits < 64 }
    ensures none { IfNone result (bytes % 2 ^ cluster_bits ≢ 0) }
    ensures index { IfSome result (λ index. index * 2 ^ cluster_bits ≡ bytes) }
{
    if in_cluster(bytes, cluster_bits) == 0 {
        Some(bytes >> cluster_bits)
    } else {
        None
    }
}

/// An offset in the image's file, in bytes.
#[derive(Clone, Copy, Debug, PartialEq, Eq, PartialOrd, Ord, Hash)]
pub struct HostOffset {
    bytes: u64,
}

impl Model for HostOffset {
    ghost use Rattle.std.specs.Prelude.{ℕ};

    ghost Value = { ℕ };

    ghost view = { λ o. o.bytes };

    ghost inverse = { λ n. record { bytes = n } };
}

impl HostOffset {
    /// The offset of this many bytes.
    pub fn new(bytes: u64) -> HostOffset
        ensures { result ≡ bytes }
    {
        HostOffset { bytes }
    }

    /// The offset, in bytes.
    pub fn value(self) -> u64
        ensures { result ≡ self }
    {
        self.bytes
    }

    /// The cluster that contains the offset.
    pub fn cluster(self, cluster_bits: u32) -> HostCluster
        requires { cluster_bits < 64 }
        ensures { result ≡ self / 2 ^ cluster_bits }
    {
        HostCluster::new(self.bytes >> cluster_bits)
    }

    /// The cluster that begins at the offset, if one does.
    pub fn checked_cluster(self, cluster_bits: u32) -> Option<HostCluster>
        requires { cluster_bits < 64 }
        ensures none { IfNone result (self % 2 ^ cluster_bits ≢ 0) }
        ensures cluster { IfSome result (λ cluster. cluster * 2 ^ cluster_bits ≡ self) }
    {
        let index = checked_index(self.bytes, cluster_bits)?;
        Some(HostCluster::new(index))
    }

    /// The offset in its cluster, in bytes.
    pub fn in_cluster_offset(self, cluster_bits: u32) -> u64
        requires { cluster_bits < 64 }
        ensures { result ≡ self % 2 ^ cluster_bits }
    {
        in_cluster(self.bytes, cluster_bits)
    }
}

/// A cluster of the image's file, by its number.
#[derive(Clone, Copy, Debug, PartialEq, Eq, PartialOrd, Ord, Hash)]
pub struct HostCluster {
    index: u64,
}

impl Model for HostCluster {
    ghost use Rattle.std.specs.Prelude.{ℕ};

    ghost Value = { ℕ };

    ghost view = { λ c. c.index };

    ghost inverse = { λ n. record { index = n } };
}

impl HostCluster {
    /// The file's cluster of this index.
    pub fn new(index: u64) -> HostCluster
        ensures { result ≡ index }
    {
        HostCluster { index }
    }

    /// The index of the cluster.
    pub fn value(self) -> u64
        ensures { result ≡ self }
    {
        self.index
    }

    /// Cluster `rb_index` of those that refblock `rt_index` counts.
    pub fn from_ref_indices(rt_index: usize, rb_index: usize, rb_bits: u32) -> HostCluster
        requires bits { rb_bits < 64 }
        requires fits { rt_index * 2 ^ rb_bits + rb_index < 2 ^ 64 }
        ensures { result ≡ rt_index * 2 ^ rb_bits + rb_index }
    {
        HostCluster::new(rt_index as u64 * (1 << rb_bits) + rb_index as u64)
    }

    /// The index of the refblock that counts the cluster.
    pub fn rt_index(self, rb_bits: u32) -> usize
        requires { rb_bits < 64 }
        ensures { result ≡ self / 2 ^ rb_bits }
    {
        (self.index >> rb_bits) as usize
    }

    /// The index of the cluster's refcount in its refblock.
    pub fn rb_index(self, rb_bits: u32) -> usize
        requires { rb_bits < 64 }
        ensures value { result ≡ self % 2 ^ rb_bits }
        ensures within { result < 2 ^ rb_bits }
    {
        (self.index % (1 << rb_bits)) as usize
    }

    /// The offset where the cluster begins.
    pub fn offset(self, cluster_bits: u32) -> HostOffset
        requires bits { cluster_bits < 64 }
        requires fits { self * 2 ^ cluster_bits < 2 ^ 64 }
        ensures { result ≡ self * 2 ^ cluster_bits }
    {
        HostOffset::new(self.index * (1 << cluster_bits))
    }

    /// The offset where the cluster begins, if it fits into 64 bits.
    pub fn checked_offset(self, cluster_bits: u32) -> Option<HostOffset>
        requires { cluster_bits < 64 }
        ensures none { IfNone result (2 ^ 64 ≤ self * 2 ^ cluster_bits) }
        ensures offset { IfSome result (λ offset. offset ≡ self * 2 ^ cluster_bits) }
    {
        let bytes = self.index.checked_mul(1 << cluster_bits)?;
        Some(HostOffset::new(bytes))
    }

    /// The byte of this host cluster that belongs to a guest offset: both have the same offset in their clusters.
    pub fn relative_offset(self, guest: GuestOffset, cluster_bits: u32) -> HostOffset
        requires bits { cluster_bits < 64 }
        requires fits { self * 2 ^ cluster_bits + guest % 2 ^ cluster_bits < 2 ^ 64 }
        ensures { result ≡ self * 2 ^ cluster_bits + guest % 2 ^ cluster_bits }
    {
        HostOffset::new(self.index * (1 << cluster_bits) + guest.in_cluster_offset(cluster_bits))
    }

    /// The cluster `count` clusters after this one, if its number fits into 64 bits.
    pub fn checked_add(self, count: ClusterCount) -> Option<HostCluster>
        ensures none { IfNone result (2 ^ 64 ≤ self + count) }
        ensures cluster { IfSome result (λ cluster. cluster ≡ self + count) }
    {
        let index = self.index.checked_add(count.value())?;
        Some(HostCluster::new(index))
    }
}

impl Add<ClusterCount> for HostCluster {
    type Output = HostCluster;

    ghost can_add = { λ cluster count. cluster + count < 2 ^ 64 };

    ghost add_gives = { λ cluster count sum. sum ≡ cluster + count };

    fn add(self, count: ClusterCount) -> HostCluster {
        HostCluster::new(self.index + count.value())
    }
}

/// The distance of two clusters. The first must not lie before the second.
impl Sub<HostCluster> for HostCluster {
    type Output = ClusterCount;

    ghost can_sub = { λ cluster start. start ≤ cluster };

    ghost sub_gives = { λ cluster start count. count ≡ cluster - start };

    fn sub(self, start: HostCluster) -> ClusterCount {
        ClusterCount::new(self.index - start.index)
    }
}

/// An offset on the guest's disk, in bytes.
#[derive(Clone, Copy, Debug, PartialEq, Eq, PartialOrd, Ord, Hash)]
pub struct GuestOffset {
    bytes: u64,
}

impl Model for GuestOffset {
    ghost use Rattle.std.specs.Prelude.{ℕ};

    ghost Value = { ℕ };

    ghost view = { λ o. o.bytes };

    ghost inverse = { λ n. record { bytes = n } };
}

impl GuestOffset {
    /// The offset of this many bytes.
    pub fn new(bytes: u64) -> GuestOffset
        ensures { result ≡ bytes }
    {
        GuestOffset { bytes }
    }

    /// The offset, in bytes.
    pub fn value(self) -> u64
        ensures { result ≡ self }
    {
        self.bytes
    }

    /// The cluster that contains the offset.
    pub fn cluster(self, cluster_bits: u32) -> GuestCluster
        requires { cluster_bits < 64 }
        ensures { result ≡ self / 2 ^ cluster_bits }
    {
        GuestCluster::new(self.bytes >> cluster_bits)
    }

    /// The cluster that begins at the offset, if one does.
    pub fn checked_cluster(self, cluster_bits: u32) -> Option<GuestCluster>
        requires { cluster_bits < 64 }
        ensures none { IfNone result (self % 2 ^ cluster_bits ≢ 0) }
        ensures cluster { IfSome result (λ cluster. cluster * 2 ^ cluster_bits ≡ self) }
    {
        let index = checked_index(self.bytes, cluster_bits)?;
        Some(GuestCluster::new(index))
    }

    /// The offset in its cluster, in bytes.
    pub fn in_cluster_offset(self, cluster_bits: u32) -> u64
        requires { cluster_bits < 64 }
        ensures { result ≡ self % 2 ^ cluster_bits }
    {
        in_cluster(self.bytes, cluster_bits)
    }

    /// The number of bytes from the offset to the end of its cluster.
    pub fn remaining_in_cluster(self, cluster_bits: u32) -> u64
        requires { cluster_bits < 64 }
        ensures { result + self % 2 ^ cluster_bits ≡ 2 ^ cluster_bits }
    {
        (1 << cluster_bits) - self.in_cluster_offset(cluster_bits)
    }

    /// The index of the L1 entry that covers the offset.
    pub fn l1_index(self, cluster_bits: u32) -> usize
        requires low { 3 ≤ cluster_bits }
        requires high { cluster_bits < 64 }
        ensures { result ≡ self / 2 ^ cluster_bits / (2 ^ cluster_bits / 8) }
    {
        self.cluster(cluster_bits).l1_index(cluster_bits)
    }

    /// The index of the L2 entry that covers the offset.
    pub fn l2_index(self, cluster_bits: u32) -> usize
        requires low { 3 ≤ cluster_bits }
        requires high { cluster_bits < 64 }
        ensures value { result ≡ self / 2 ^ cluster_bits % (2 ^ cluster_bits / 8) }
        ensures within { result < 2 ^ cluster_bits / 8 }
    {
        self.cluster(cluster_bits).l2_index(cluster_bits)
    }
}

/// A cluster of the guest's disk, by its number.
#[derive(Clone, Copy, Debug, PartialEq, Eq, PartialOrd, Ord, Hash)]
pub struct GuestCluster {
    index: u64,
}

impl Model for GuestCluster {
    ghost use Rattle.std.specs.Prelude.{ℕ};

    ghost Value = { ℕ };

    ghost view = { λ c. c.index };

    ghost inverse = { λ n. record { index = n } };
}

impl GuestCluster {
    /// The cluster of this index on the guest's disk.
    pub fn new(index: u64) -> GuestCluster
        ensures { result ≡ index }
    {
        GuestCluster { index }
    }

    /// The index of the cluster.
    pub fn value(self) -> u64
        ensures { result ≡ self }
    {
        self.index
    }

    /// The offset where the cluster begins.
    pub fn offset(self, cluster_bits: u32) -> GuestOffset
        requires bits { cluster_bits < 64 }
        requires fits { self * 2 ^ cluster_bits < 2 ^ 64 }
        ensures { result ≡ self * 2 ^ cluster_bits }
    {
        GuestOffset::new(self.index * (1 << cluster_bits))
    }

    /// The index of the L1 entry that covers the cluster.
    pub fn l1_index(self, cluster_bits: u32) -> usize
        requires low { 3 ≤ cluster_bits }
        requires high { cluster_bits < 64 }
        ensures { result ≡ self / (2 ^ cluster_bits / 8) }
    {
        (self.index / entries_per_cluster(cluster_bits)) as usize
    }

    /// The index of the L2 entry that covers the cluster.
    pub fn l2_index(self, cluster_bits: u32) -> usize
        requires low { 3 ≤ cluster_bits }
        requires high { cluster_bits < 64 }
        ensures value { result ≡ self % (2 ^ cluster_bits / 8) }
        ensures within { result < 2 ^ cluster_bits / 8 }
    {
        (self.index % entries_per_cluster(cluster_bits)) as usize
    }

    /// The next cluster, if the same L2 table covers it.
    #[tactic(auto, using(crate::proofs::Quotients::next_fits))]
    pub fn next_in_l2(self, cluster_bits: u32) -> Option<GuestCluster>
        requires low { 3 ≤ cluster_bits }
        requires high { cluster_bits < 64 }
        ensures none { IfNone result (self % (2 ^ cluster_bits / 8) + 1 ≡ 2 ^ cluster_bits / 8) }
        ensures next { IfSome result (λ next. next ≡ self + 1) }
        ensures same_table { IfSome result (λ next. next / (2 ^ cluster_bits / 8) ≡ self / (2 ^ cluster_bits / 8)) }
    {
        let entries = entries_per_cluster(cluster_bits);
        if self.index % entries + 1 == entries {
            None
        } else {
            Some(GuestCluster::new(self.index + 1))
        }
    }

    /// The first cluster that the next L2 table covers.
    pub fn first_in_next_l2(self, cluster_bits: u32) -> GuestCluster
        requires low { 3 ≤ cluster_bits }
        requires high { cluster_bits < 64 }
        requires fits { (self / (2 ^ cluster_bits / 8) + 1) * (2 ^ cluster_bits / 8) < 2 ^ 64 }
        ensures { result ≡ (self / (2 ^ cluster_bits / 8) + 1) * (2 ^ cluster_bits / 8) }
    {
        let entries = entries_per_cluster(cluster_bits);
        GuestCluster::new((self.index / entries + 1) * entries)
    }
}

impl Add<ClusterCount> for GuestCluster {
    type Output = GuestCluster;

    ghost can_add = { λ cluster count. cluster + count < 2 ^ 64 };

    ghost add_gives = { λ cluster count sum. sum ≡ cluster + count };

    fn add(self, count: ClusterCount) -> GuestCluster {
        GuestCluster::new(self.index + count.value())
    }
}

/// A number of clusters.
#[derive(Clone, Copy, Debug, PartialEq, Eq, PartialOrd, Ord, Hash)]
pub struct ClusterCount {
    clusters: u64,
}

impl Model for ClusterCount {
    ghost use Rattle.std.specs.Prelude.{ℕ};

    ghost Value = { ℕ };

    ghost view = { λ c. c.clusters };

    ghost inverse = { λ n. record { clusters = n } };
}

impl ClusterCount {
    /// This many clusters.
    pub fn new(clusters: u64) -> ClusterCount
        ensures { result ≡ clusters }
    {
        ClusterCount { clusters }
    }

    /// The number of clusters.
    pub fn value(self) -> u64
        ensures { result ≡ self }
    {
        self.clusters
    }

    /// The number of clusters that this many bytes need, rounded up.
    pub fn from_byte_size(bytes: u64, cluster_bits: u32) -> ClusterCount
        requires { cluster_bits < 64 }
        ensures { result ≡ (bytes + 2 ^ cluster_bits - 1) / 2 ^ cluster_bits }
    {
        ClusterCount::new(bytes.div_ceil(1 << cluster_bits))
    }

    /// The number of clusters that this many bytes fill, if they fill whole clusters.
    pub fn checked_from_byte_size(bytes: u64, cluster_bits: u32) -> Option<ClusterCount>
        requires { cluster_bits < 64 }
        ensures none { IfNone result (bytes % 2 ^ cluster_bits ≢ 0) }
        ensures count { IfSome result (λ count. count * 2 ^ cluster_bits ≡ bytes) }
    {
        let clusters = checked_index(bytes, cluster_bits)?;
        Some(ClusterCount::new(clusters))
    }

    /// The size of these clusters in bytes.
    pub fn byte_size(self, cluster_bits: u32) -> u64
        requires bits { cluster_bits < 64 }
        requires fits { self * 2 ^ cluster_bits < 2 ^ 64 }
        ensures { result ≡ self * 2 ^ cluster_bits }
    {
        self.clusters * (1 << cluster_bits)
    }
}

impl Add<ClusterCount> for ClusterCount {
    type Output = ClusterCount;

    ghost can_add = { λ a b. a + b < 2 ^ 64 };

    ghost add_gives = { λ a b sum. sum ≡ a + b };

    fn add(self, other: ClusterCount) -> ClusterCount {
        ClusterCount::new(self.clusters + other.clusters)
    }
}

impl Sub<ClusterCount> for ClusterCount {
    type Output = ClusterCount;

    ghost can_sub = { λ a b. b ≤ a };

    ghost sub_gives = { λ a b difference. difference ≡ a - b };

    fn sub(self, other: ClusterCount) -> ClusterCount {
        ClusterCount::new(self.clusters - other.clusters)
    }
}
