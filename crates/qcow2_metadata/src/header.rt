ghost use Rattle.std.specs.Prelude.{◌≡◌, ◌+◌, ◌-◌, ◌*◌, ◌/◌, ◌^◌, ◌<◌, ◌≤◌, option_map, IfErr, OnOk, OnErr, None};
ghost use Rattle.std.specs.String.{string_bytes};
ghost use Rattle.qcow2_metadata.specs.Header.{IsInRange, IsWithinLimits, cluster_size as cluster_size_of, entries_per_cluster, reftable_entries as reftable_entries_of, counts_per_block, counts_bits, has_data_file as has_data_file_of, with_fields, with_size, with_l1_table, with_reftable, with_tables_of};

mod create;
mod extensions;
mod load;
mod write;

use crate::{HostOffset, MAX_L1_ENTRIES, MAX_REFTABLE_ENTRIES, MetadataError};
pub(crate) use load::{cluster_bytes, read_first_cluster, require_readable};
use std::marker::Model;

/// The fields of a header, named as in QEMU's docs/interop/qcow2.txt where possible. The ranges are those of a readable header.
#[derive(Clone, Copy, Debug, PartialEq, Eq)]
pub struct HeaderFields {
    /// The magic number: `MAGIC`.
    pub magic: u32,
    /// The version: 2 or 3.
    pub version: u32,
    /// The offset of the backing file name, in bytes; 0 for none.
    pub backing_offset: u64,
    /// The length of the backing file name, in bytes.
    pub backing_length: u32,
    /// The binary logarithm of the cluster size in bytes: 9 to 21.
    pub cluster_bits: u32,
    /// The size of the guest's disk, in bytes.
    pub size: u64,
    /// The encryption method. This library reads only 0, no encryption.
    pub crypt_method: u32,
    /// The number of L1 entries: up to 4,194,304.
    pub l1_entries: u32,
    /// The offset of the L1 table in the file, in bytes.
    pub l1_offset: u64,
    /// The offset of the reftable in the file, in bytes.
    pub reftable_offset: u64,
    /// The number of clusters of the reftable, which may have up to 1,048,576 entries.
    pub reftable_clusters: u32,
    /// The number of internal snapshots.
    pub snapshots: u32,
    /// The offset of the snapshot table in the file, in bytes.
    pub snapshots_offset: u64,
    /// Incompatible feature bits: 0, or 4 for an external data file. 0 in version 2.
    pub incompatible: u64,
    /// Compatible feature bits, which a driver may ignore; 0 in version 2.
    pub compatible: u64,
    /// Autoclear feature bits, which a writer that doesn't know them clears; 0 in version 2.
    pub autoclear: u64,
    /// The binary logarithm of the refcount width in bits: 0 to 6, and 4 in version 2.
    pub refcount_order: u32,
    /// The length of the header, in bytes: 72 in version 2, at least 104 in version 3, at most a cluster.
    pub header_length: u32,
}

/// The header of an image: its fields and its names.
#[derive(Debug, Drop)]
pub struct Header {
    fields: HeaderFields,
    backing_name: Option<String>,
    backing_format: Option<String>,
    data_file_name: Option<String>,
}

impl Model for Header {
    ghost use Rattle.std.specs.Prelude.{option_map};
    ghost use Rattle.std.specs.String.{string_bytes};
    ghost use Rattle.qcow2_metadata.specs.Header.{HeaderView, IsKept};

    ghost Value = { HeaderView };

    ghost view = { λ h. record {
      fields = h.fields;
      backing_name = option_map string_bytes h.backing_name;
      backing_format = option_map string_bytes h.backing_format;
      data_file_name = option_map string_bytes h.data_file_name;
    } };

    ghost invariant = { λ h. IsKept h.fields (option_map string_bytes h.backing_name) (option_map string_bytes h.backing_format) (option_map string_bytes h.data_file_name) };
}

/// The incompatible feature bit of an external data file.
const DATA_FILE_BIT: u64 = 1 << 2;

impl Header {
    /// All fields of the header.
    pub fn fields(&self) -> HeaderFields
        ensures value { result ≡ self.now.fields }
        ensures in_range { IsInRange result }
        ensures within_limits { IsWithinLimits result }
    {
        self.fields
    }

    /// The magic number.
    pub fn magic(&self) -> u32
        ensures { result ≡ self.now.fields.magic }
    {
        self.fields.magic
    }

    /// The version: 2 or 3.
    pub fn version(&self) -> u32
        ensures value { result ≡ self.now.fields.version }
        ensures low { 2 ≤ result }
        ensures high { result ≤ 3 }
    {
        self.fields.version
    }

    /// The offset of the backing file name, in bytes; 0 for none.
    pub fn backing_offset(&self) -> u64
        ensures { result ≡ self.now.fields.backing_offset }
    {
        self.fields.backing_offset
    }

    /// The length of the backing file name, in bytes; 0 for none.
    pub fn backing_length(&self) -> u32
        ensures { result ≡ self.now.fields.backing_length }
    {
        self.fields.backing_length
    }

    /// The binary logarithm of the cluster size in bytes: 9 to 21.
    pub fn cluster_bits(&self) -> u32
        ensures value { result ≡ self.now.fields.cluster_bits }
        ensures low { 9 ≤ result }
        ensures high { result ≤ 21 }
    {
        self.fields.cluster_bits
    }

    /// The size of the guest's disk, in bytes.
    pub fn size(&self) -> u64
        ensures { result ≡ self.now.fields.size }
    {
        self.fields.size
    }

    /// The encryption method: 0, no encryption.
    pub fn crypt_method(&self) -> u32
        ensures { result ≡ self.now.fields.crypt_method }
    {
        self.fields.crypt_method
    }

    /// The number of L1 entries: up to 4,194,304.
    pub fn l1_table_entries(&self) -> u32
        ensures value { result ≡ self.now.fields.l1_entries }
        ensures limit { result ≤ 4194304 }
    {
        self.fields.l1_entries
    }

    /// The offset of the L1 table in the file.
    pub fn l1_table_offset(&self) -> HostOffset
        ensures { result ≡ self.now.fields.l1_offset }
    {
        HostOffset::new(self.fields.l1_offset)
    }

    /// The offset of the reftable in the file.
    pub fn reftable_offset(&self) -> HostOffset
        ensures { result ≡ self.now.fields.reftable_offset }
    {
        HostOffset::new(self.fields.reftable_offset)
    }

    /// The number of clusters of the reftable.
    pub fn reftable_clusters(&self) -> u32
        ensures { result ≡ self.now.fields.reftable_clusters }
    {
        self.fields.reftable_clusters
    }

    /// The number of internal snapshots.
    pub fn snapshots(&self) -> u32
        ensures { result ≡ self.now.fields.snapshots }
    {
        self.fields.snapshots
    }

    /// The offset of the snapshot table in the file, in bytes. It has no meaning without snapshots.
    pub fn snapshots_offset(&self) -> u64
        ensures { result ≡ self.now.fields.snapshots_offset }
    {
        self.fields.snapshots_offset
    }

    /// Incompatible feature bits; 0 in version 2.
    pub fn incompatible(&self) -> u64
        ensures { result ≡ self.now.fields.incompatible }
    {
        self.fields.incompatible
    }

    /// Compatible feature bits, which a driver may ignore; 0 in version 2.
    pub fn compatible(&self) -> u64
        ensures { result ≡ self.now.fields.compatible }
    {
        self.fields.compatible
    }

    /// Autoclear feature bits, which a writer that doesn't know them clears; 0 in version 2.
    pub fn autoclear(&self) -> u64
        ensures { result ≡ self.now.fields.autoclear }
    {
        self.fields.autoclear
    }

    /// The binary logarithm of the refcount width in bits: 0 to 6, and 4 in version 2.
    pub fn refcount_order(&self) -> u32
        ensures value { result ≡ self.now.fields.refcount_order }
        ensures high { result ≤ 6 }
    {
        self.fields.refcount_order
    }

    /// The length of the header, in bytes: 72 in version 2, at least 104 in version 3.
    pub fn header_length(&self) -> u32
        ensures { result ≡ self.now.fields.header_length }
    {
        self.fields.header_length
    }

    /// The name of the backing file, as the image stores it.
    pub fn backing_name(&self) -> Option<&String>
        ensures { option_map (λ s. string_bytes s.now) result ≡ self.now.backing_name }
    {
        self.backing_name.as_ref()
    }

    /// The format of the backing file, as the image stores it.
    pub fn backing_format(&self) -> Option<&String>
        ensures { option_map (λ s. string_bytes s.now) result ≡ self.now.backing_format }
    {
        self.backing_format.as_ref()
    }

    /// The name of the data file, as the image stores it.
    pub fn data_file_name(&self) -> Option<&String>
        ensures { option_map (λ s. string_bytes s.now) result ≡ self.now.data_file_name }
    {
        self.data_file_name.as_ref()
    }

    /// Whether the data are in an external file.
    pub fn has_data_file(&self) -> bool
        ensures { result ≡ has_data_file_of self.now.fields }
    {
        self.fields.incompatible & DATA_FILE_BIT != 0
    }

    /// The cluster size in bytes: 512 to 2,097,152.
    pub fn cluster_size(&self) -> u64
        ensures value { result ≡ cluster_size_of self.now.fields }
        ensures low { 512 ≤ result }
        ensures high { result ≤ 2097152 }
    {
        1 << self.cluster_bits()
    }

    /// The number of entries of an L2 table: the cluster size divided by 8.
    pub fn l2_entries(&self) -> usize
        ensures value { result ≡ entries_per_cluster self.now.fields }
        ensures low { 64 ≤ result }
        ensures high { result ≤ 262144 }
    {
        self.cluster_size() as usize / 8
    }

    /// The number of entries of the reftable: up to 1,048,576.
    pub fn reftable_entries(&self) -> u64
        ensures value { result ≡ reftable_entries_of self.now.fields }
        ensures limit { result ≤ 1048576 }
    {
        u64::from(self.fields.reftable_clusters) * (self.cluster_size() / 8)
    }

    /// The binary logarithm of the number of refcounts in a refblock.
    pub fn rb_bits(&self) -> u32
        ensures value { result ≡ counts_bits self.now.fields }
        ensures counts { counts_per_block self.now.fields ≡ 2 ^ result }
        ensures low { 6 ≤ result }
        ensures high { result ≤ 24 }
    {
        self.cluster_bits() + 3 - self.refcount_order()
    }

    /// The number of refcounts in a refblock.
    pub fn rb_entries(&self) -> usize
        ensures value { result ≡ counts_per_block self.now.fields }
        ensures low { 64 ≤ result }
        ensures high { result ≤ 16777216 }
    {
        1 << self.rb_bits()
    }

    /// Refuses an image of a version below `minimum`: `Version`.
    pub fn require_version(&self, minimum: u32) -> Result<(), MetadataError>
        ensures ok { OnOk result (minimum ≤ self.now.fields.version) }
        ensures err { IfErr result (λ e. (e ≡ MetadataError.Version) × (self.now.fields.version < minimum)) }
    {
        if self.version() < minimum {
            return Err(MetadataError::Version);
        }
        Ok(())
    }

    /// Sets the size of the guest's disk, in bytes, only in memory.
    pub fn set_size(&mut self, size: u64)
        ensures { self.new ≡ with_fields self.old (with_size self.old.fields size) }
    {
        self.fields = HeaderFields {
            size,
            ..self.fields
        };
    }

    /// Sets the offset and the length of the L1 table, only in memory. Refused `Limit` for more than 4,194,304 entries.
    pub fn set_l1_table(&mut self, offset: HostOffset, entries: u32) -> Result<(), MetadataError>
        ensures ok { OnOk result (self.new ≡ with_fields self.old (with_l1_table self.old.fields offset entries)) }
        ensures err { IfErr result (λ e. (e ≡ MetadataError.Limit) × (4194304 < entries)) }
        ensures same { OnErr result (self.new ≡ self.old) }
    {
        if entries as usize > MAX_L1_ENTRIES {
            return Err(MetadataError::Limit);
        }
        self.fields = HeaderFields {
            l1_offset: offset.value(),
            l1_entries: entries,
            ..self.fields
        };
        Ok(())
    }

    /// Sets the offset and the length of the reftable, only in memory. Refused `Limit` if its clusters hold more than 1,048,576 entries.
    pub fn set_reftable(&mut self, offset: HostOffset, clusters: u32) -> Result<(), MetadataError>
        ensures ok { OnOk result (self.new ≡ with_fields self.old (with_reftable self.old.fields offset clusters)) }
        ensures err { IfErr result (λ e. (e ≡ MetadataError.Limit) × (1048576 < clusters * entries_per_cluster self.old.fields)) }
        ensures same { OnErr result (self.new ≡ self.old) }
    {
        if u64::from(clusters) * (self.cluster_size() / 8) > MAX_REFTABLE_ENTRIES as u64 {
            return Err(MetadataError::Limit);
        }
        self.fields = HeaderFields {
            reftable_offset: offset.value(),
            reftable_clusters: clusters,
            ..self.fields
        };
        Ok(())
    }

    /// Copies the offsets and the lengths of the L1 table and the reftable from another header, only in memory. Refused as `set_reftable` and
    /// `set_l1_table` are.
    pub fn update(&mut self, other: &Header) -> Result<(), MetadataError>
        ensures ok { OnOk result (self.new ≡ with_fields self.old (with_tables_of self.old.fields other.now.fields)) }
        ensures err { IfErr result (λ e. (e ≡ MetadataError.Limit)
            × (1048576 < other.now.fields.reftable_clusters * entries_per_cluster self.old.fields)) }
        ensures same { OnErr result (self.new ≡ self.old) }
    {
        self.set_reftable(other.reftable_offset(), other.reftable_clusters())?;
        self.set_l1_table(other.l1_table_offset(), other.l1_table_entries())
    }

    /// The header without its names.
    pub fn without_names(&self) -> Header
        ensures { result ≡ record { fields = self.now.fields; backing_name = None; backing_format = None; data_file_name = None } }
    {
        Header {
            fields: self.fields,
            backing_name: None,
            backing_format: None,
            data_file_name: None,
        }
    }
}
