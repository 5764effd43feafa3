//! The breaches and leaks of a report.

/// What lies at an offset.
#[derive(Clone, Copy, Debug, PartialEq, Eq)]
pub enum Kind {
    /// The L1 table.
    L1,
    /// The reftable.
    Reftable,
    /// An L2 table.
    L2,
    /// A refblock.
    Refblock,
    /// Guest data.
    Data,
}

/// A breach of consistency. Clusters are given by their numbers in the file, from 0.
#[derive(Clone, Copy, Debug, PartialEq, Eq)]
pub enum Breach {
    /// The image has this many internal snapshots.
    Snapshots {
        count: u32,
    },
    /// The data are in an external file.
    External,
    /// An offset, in bytes, is not a multiple of the cluster size.
    Unaligned {
        kind: Kind,
        offset: u64,
    },
    /// A cluster has more references than its refcount.
    Under {
        cluster: u64,
        count: u64,
        named: u64,
    },
    /// A cluster of a table has more than one reference.
    Shared {
        cluster: u64,
        named: u64,
    },
    /// A cluster is marked copied, and does not have one reference and refcount 1.
    Copied {
        cluster: u64,
        count: u64,
        named: u64,
    },
}

/// A leaked cluster: one with a higher refcount than references.
#[derive(Clone, Copy, Debug, PartialEq, Eq)]
pub struct Leak {
    /// The number of the cluster in the file, from 0.
    pub cluster: u64,
    /// The refcount of the cluster.
    pub count: u64,
    /// The number of references to the cluster.
    pub named: u64,
}
