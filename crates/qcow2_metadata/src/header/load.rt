//! Loading a header.

ghost use Rattle.std.specs.Prelude.{◌≡◌, ◌≢◌, ◌+◌, ◌*◌, ◌^◌, ◌≤◌, ◌<◌, length, Bool, IsTrue, ◌⊎◌, IfOk, IfErr, OnOk, ◌↔◌, option_copied, option_map};
ghost use Rattle.std.specs.String.{string_bytes};
ghost use Rattle.qcow2_metadata.specs.Bytes.{byte_at};
ghost use Rattle.qcow2_metadata.specs.Header.{header, cluster_size, backing_name, HeaderReads, IsInRange, IsWithinLimits, BackingNameReads};
ghost use Rattle.qcow2_metadata.specs.HeaderLoad.{HasAlignedTables, IsHeaderOf, IsHeaderIn, IsReasonToRefuse, IsReasonNotToRead};
ghost use Rattle.qcow2_metadata.specs.MetadataError.{OnlyReads};
ghost use Rattle.image_access.specs.Contents.{bytes_at};
ghost use Rattle.image_access.specs.declared.error.StorageError.{StorageError};

use super::extensions::{read_extensions, text};
use super::{DATA_FILE_BIT, Header};
use crate::big_endian::{read_u32, read_u64};
use crate::{HeaderFields, MAGIC, MAX_L1_ENTRIES, MAX_REFTABLE_ENTRIES, MetadataError};
use image_access::{Storage, StorageError};
use std::alloc::{AllocError, Global};

/// The size of a version 2 header in bytes.
const OLD_HEADER_LENGTH: u32 = 72;

/// The size of a version 3 header in bytes, without additional fields.
pub(super) const HEADER_LENGTH: u32 = 104;

/// Reads the numbers of a header at their offsets.
#[tactic(auto, unfolding(crate::specs::Header::header))]
fn read_fields(bytes: &[u8]) -> HeaderFields
    requires { 104 ≤ length bytes.now }
    ensures { result ≡ header (byte_at bytes.now) }
{
    let version = read_u32(bytes, 4);
    let is_old = version == 2;
    HeaderFields {
        magic: read_u32(bytes, 0),
        version,
        backing_offset: read_u64(bytes, 8),
        backing_length: read_u32(bytes, 16),
        cluster_bits: read_u32(bytes, 20),
        size: read_u64(bytes, 24),
        crypt_method: read_u32(bytes, 32),
        l1_entries: read_u32(bytes, 36),
        l1_offset: read_u64(bytes, 40),
        reftable_offset: read_u64(bytes, 48),
        reftable_clusters: read_u32(bytes, 56),
        snapshots: read_u32(bytes, 60),
        snapshots_offset: read_u64(bytes, 64),
        incompatible: if is_old { 0 } else { read_u64(bytes, 72) },
        compatible: if is_old { 0 } else { read_u64(bytes, 80) },
        autoclear: if is_old { 0 } else { read_u64(bytes, 88) },
        refcount_order: if is_old { 4 } else { read_u32(bytes, 96) },
        header_length: if is_old {
            OLD_HEADER_LENGTH
        } else {
            read_u32(bytes, 100)
        },
    }
}

/// The bytes of a cluster.
pub(crate) fn cluster_bytes(cluster_bits: u32) -> u64
    requires { cluster_bits ≤ 21 }
    ensures value { result ≡ 2 ^ cluster_bits }
    ensures small { result ≤ 2097152 }
{
    1 << cluster_bits
}

/// Whether this driver knows the version and each incompatible feature.
fn is_known(fields: &HeaderFields) -> bool
    ensures { IsTrue result ↔ ((fields.now.magic ≡ 0x514649fb) × ((fields.now.version ≡ 2) ⊎ (fields.now.version ≡ 3))
        × (fields.now.crypt_method ≡ 0) × ((fields.now.incompatible ≡ 0) ⊎ (fields.now.incompatible ≡ 4))) }
{
    fields.magic == MAGIC
        && (fields.version == 2 || fields.version == 3)
        && fields.crypt_method == 0
        && (fields.incompatible == 0 || fields.incompatible == DATA_FILE_BIT)
}

fn has_header_length(fields: &HeaderFields) -> bool
    requires { fields.now.cluster_bits ≤ 21 }
    ensures { IsTrue result ↔ ((fields.now.version ≡ 3 → 104 ≤ fields.now.header_length)
        × (fields.now.header_length ≤ cluster_size fields.now)) }
{
    (fields.version != 3 || HEADER_LENGTH <= fields.header_length)
        && u64::from(fields.header_length) <= cluster_bytes(fields.cluster_bits)
}

fn is_in_range(fields: &HeaderFields) -> bool
    ensures { IsTrue result ↔ IsInRange fields.now }
{
    is_known(fields)
        && 9 <= fields.cluster_bits
        && fields.cluster_bits <= 21
        && fields.refcount_order <= 6
        && has_header_length(fields)
}

/// The name of the backing file.
#[tactic(auto, using(crate::proofs::Extensions::name_part), unfolding(crate::specs::Header::backing_name))]
fn read_backing_name<'a>(
    cluster: &'a [u8],
    fields: &HeaderFields,
) -> Result<Option<&'a str>, MetadataError>
    requires { length cluster.now ≡ cluster_size fields.now }
    ensures ok { OnOk result (BackingNameReads fields.now (byte_at cluster.now)) }
    ensures name { IfOk result (λ name. option_copied name ≡ backing_name fields.now (byte_at cluster.now)) }
    ensures err { IfErr result (λ e. (e ≡ MetadataError.Format) × ¬ BackingNameReads fields.now (byte_at cluster.now)) }
{
    let offset = fields.backing_offset;
    let length = u64::from(fields.backing_length);
    let end = cluster.len() as u64;
    if offset == 0 {
        return Ok(None);
    }
    if offset > end || length > end - offset {
        return Err(MetadataError::Format);
    }
    if length > 0 && offset < u64::from(fields.header_length) {
        return Err(MetadataError::Format);
    }
    let name = text(&cluster[offset as usize..(offset + length) as usize])?;
    Ok(Some(name))
}

fn is_within_limits(fields: &HeaderFields) -> bool
    requires { IsInRange fields.now }
    ensures { IsTrue result ↔ IsWithinLimits fields.now }
{
    let entries = cluster_bytes(fields.cluster_bits) / 8;
    fields.l1_entries as usize <= MAX_L1_ENTRIES
        && u64::from(fields.reftable_clusters) * entries <= MAX_REFTABLE_ENTRIES as u64
}

fn has_aligned_tables(fields: &HeaderFields, writable: bool) -> bool
    requires { IsInRange fields.now }
    ensures { IsTrue result ↔ HasAlignedTables fields.now writable }
{
    let size = cluster_bytes(fields.cluster_bits);
    fields.l1_offset % size == 0 && (!writable || fields.reftable_offset % size == 0)
}

/// A copy of a text.
fn owned(alloc: Global, text: Option<&str>) -> Result<Option<String>, AllocError>
    ensures { IfOk result (λ owned. option_map string_bytes owned ≡ option_copied text.entry) }
{
    match text {
        Some(text) => Ok(Some(String::from_str(alloc, text)?)),
        None => Ok(None),
    }
}

/// Reads the numbers, and then the whole of cluster 0.
pub(crate) fn read_first_cluster<S: Storage>(
    alloc: Global,
    storage: &mut S,
) -> Result<(HeaderFields, Vec<u8>), MetadataError>
    ensures in_range { IfOk result (λ r. IsInRange r.0) }
    ensures whole { IfOk result (λ r. length r.1.items ≡ cluster_size r.0) }
    ensures fields { (S.view storage.old).is_honest → IfOk result (λ r. r.0 ≡ header (byte_at (S.view storage.old).contents)) }
    ensures bytes { (S.view storage.old).is_honest → IfOk result (λ r. r.1.items ≡ bytes_at (S.view storage.old).contents 0 (cluster_size r.0)) }
    ensures refused { (S.view storage.old).is_honest → IfErr result (λ e. (writable : Bool)
        → IsReasonToRefuse (header (byte_at (S.view storage.old).contents)) (byte_at (S.view storage.old).contents) writable e) }
    ensures unread { (S.view storage.old).is_honest
        → IfErr result (IsReasonNotToRead (header (byte_at (S.view storage.old).contents)) (byte_at (S.view storage.old).contents)) }
    ensures reads { OnlyReads (S.view storage.old) (S.view storage.new) result }
{
    let mut start = [0; 104];
    storage.read(0, &mut start)?;
    let fields = read_fields(&start);
    if !is_in_range(&fields) {
        return Err(MetadataError::Format);
    }
    let size = cluster_bytes(fields.cluster_bits);
    let mut cluster = vec![in alloc; 0u8; size as usize]?;
    storage.read(0, &mut cluster)?;
    Ok((fields, cluster))
}

/// Refuses an unreadable header, by its numbers and the bytes of cluster 0.
pub(crate) fn require_readable(fields: &HeaderFields, cluster: &[u8]) -> Result<(), MetadataError>
    requires in_range { IsInRange fields.now }
    requires whole { length cluster.now ≡ cluster_size fields.now }
    ensures ok { OnOk result (HeaderReads fields.now (byte_at cluster.now)) }
    ensures refused { IfErr result (IsReasonNotToRead fields.now (byte_at cluster.now)) }
    ensures own { IfErr result (λ e. (fault : StorageError) → e ≢ MetadataError.Storage fault) }
{
    read_extensions(cluster, fields.header_length as usize)?;
    read_backing_name(cluster, fields)?;
    if !is_within_limits(fields) {
        return Err(MetadataError::Limit);
    }
    Ok(())
}

/// The header with these numbers and the names in cluster 0.
fn from_first_cluster(
    alloc: Global,
    fields: HeaderFields,
    cluster: &[u8],
    writable: bool,
) -> Result<Header, MetadataError>
    requires in_range { IsInRange fields }
    requires whole { length cluster.now ≡ cluster_size fields }
    ensures ok { IfOk result (λ header. IsHeaderOf header fields (byte_at cluster.now)) }
    ensures aligned { OnOk result (HasAlignedTables fields writable) }
    ensures refused { IfErr result (IsReasonToRefuse fields (byte_at cluster.now) writable) }
    ensures own { IfErr result (λ e. (fault : StorageError) → e ≢ MetadataError.Storage fault) }
{
    let names = read_extensions(cluster, fields.header_length as usize)?;
    let backing_name = read_backing_name(cluster, &fields)?;
    if !is_within_limits(&fields) {
        return Err(MetadataError::Limit);
    }
    if !has_aligned_tables(&fields, writable) {
        return Err(MetadataError::Unaligned);
    }
    Ok(Header {
        fields,
        backing_name: owned(alloc, backing_name)?,
        backing_format: owned(alloc, names.backing_format)?,
        data_file_name: owned(alloc, names.data_file_name)?,
    })
}

impl Header {
    /// Reads the header, with its extensions and names, from cluster 0. Refused `Format` if it isn't readable, then `Limit` if a table
    /// is too long, then `Unaligned` if the L1 table, or for writing the reftable, isn't aligned. May be refused `Memory` or `Storage` during the
    /// work.
    pub fn load<S: Storage>(
        alloc: Global,
        storage: &mut S,
        writable: bool,
    ) -> Result<Header, MetadataError>
        ensures ok { (S.view storage.old).is_honest → IfOk result (λ h. IsHeaderIn h (S.view storage.old).contents) }
        ensures aligned { IfOk result (λ h. HasAlignedTables h.fields writable) }
        ensures refused { (S.view storage.old).is_honest
            → IfErr result (IsReasonToRefuse (header (byte_at (S.view storage.old).contents)) (byte_at (S.view storage.old).contents) writable) }
        ensures reads { OnlyReads (S.view storage.old) (S.view storage.new) result }
    {
        let (fields, cluster) = read_first_cluster(alloc, storage)?;
        from_first_cluster(alloc, fields, &cluster, writable)
    }
}
