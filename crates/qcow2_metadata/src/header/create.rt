//! The header of a new image.

ghost use Rattle.std.specs.Prelude.{◌≡◌, ◌+◌, ◌*◌, ◌^◌, ◌≤◌, [], ◌↔◌, length, IsTrue, unwrap_or, option_map, option_copied};
ghost use Rattle.std.specs.String.{string_bytes};
ghost use Rattle.qcow2_metadata.specs.Header.{IsShort};
ghost use Rattle.qcow2_metadata.specs.HeaderWrite.{extension_size as extension_size_of, name_place as name_place_of, CanBeNew, HasNewNames, new_fields as new_fields_of, new_header};

use super::load::{HEADER_LENGTH, cluster_bytes};
use super::{DATA_FILE_BIT, Header, HeaderFields};
use crate::MAGIC;

fn length_of(name: Option<&str>) -> usize
    ensures { result ≡ length (unwrap_or (option_copied name.entry) []) }
{
    match name {
        Some(name) => name.len(),
        None => 0,
    }
}

/// The size of a name's extension in bytes.
fn extension_size(name: Option<&str>) -> usize
    requires { IsShort (option_copied name) }
    ensures value { result ≡ extension_size_of (option_copied name.entry) }
    ensures small { result ≤ 2097168 }
{
    match name {
        Some(name) => 8 + name.len().div_ceil(8) * 8,
        None => 0,
    }
}

/// The offset of the backing file's name: after the numbers, the extensions and their end.
fn name_place(format: Option<&str>, data_file: Option<&str>) -> usize
    requires format { IsShort (option_copied format) }
    requires data_file { IsShort (option_copied data_file) }
    ensures value { result ≡ name_place_of (option_copied format.entry) (option_copied data_file.entry) }
    ensures small { result ≤ 4194448 }
{
    HEADER_LENGTH as usize + extension_size(format) + extension_size(data_file) + 8
}

fn new_fields(
    cluster_bits: u32,
    refcount_order: u32,
    backing_name: Option<&str>,
    backing_format: Option<&str>,
    data_file_name: Option<&str>,
) -> HeaderFields
    requires { CanBeNew cluster_bits refcount_order (option_copied backing_name) (option_copied backing_format) (option_copied data_file_name) }
    ensures { result ≡ new_fields_of cluster_bits refcount_order (option_copied backing_name.entry)
        (option_copied backing_format.entry) (option_copied data_file_name.entry) }
{
    let place = name_place(backing_format, data_file_name);
    HeaderFields {
        magic: MAGIC,
        version: 3,
        backing_offset: if backing_name.is_some() {
            place as u64
        } else {
            0
        },
        backing_length: length_of(backing_name) as u32,
        cluster_bits,
        size: 0,
        crypt_method: 0,
        l1_entries: 0,
        l1_offset: 0,
        reftable_offset: cluster_bytes(cluster_bits),
        reftable_clusters: 1,
        snapshots: 0,
        snapshots_offset: 0,
        incompatible: if data_file_name.is_some() {
            DATA_FILE_BIT
        } else {
            0
        },
        compatible: 0,
        autoclear: 0,
        refcount_order,
        header_length: HEADER_LENGTH,
    }
}

impl Header {
    #[tactic(auto, using(crate::proofs::NewHeader::short_name))]
    /// Whether a new header has room for these names in its cluster, and allows the cluster size (9 to 21 bits) and the refcount
    /// order (0 to 6).
    pub fn fits(
        cluster_bits: u32,
        refcount_order: u32,
        backing_name: Option<&str>,
        backing_format: Option<&str>,
        data_file_name: Option<&str>,
    ) -> bool
        ensures { IsTrue result ↔ CanBeNew cluster_bits refcount_order (option_copied backing_name.entry)
            (option_copied backing_format.entry) (option_copied data_file_name.entry) }
    {
        if !(9..=21).contains(&cluster_bits) || refcount_order > 6 {
            return false;
        }
        let size = cluster_bytes(cluster_bits) as usize;
        let name = length_of(backing_name);
        if name > size || length_of(backing_format) > size || length_of(data_file_name) > size {
            return false;
        }
        name_place(backing_format, data_file_name) + name <= size
    }

    /// The header of a new image of version 3: size 0, no L1 table, and a reftable of one cluster after the header's. `fits` must hold.
    pub fn new(
        cluster_bits: u32,
        refcount_order: u32,
        backing_name: Option<String>,
        backing_format: Option<String>,
        data_file_name: Option<String>,
    ) -> Header
        requires { CanBeNew cluster_bits refcount_order (option_map string_bytes backing_name)
            (option_map string_bytes backing_format) (option_map string_bytes data_file_name) }
        ensures value { result ≡ new_header cluster_bits refcount_order (option_map string_bytes backing_name)
            (option_map string_bytes backing_format) (option_map string_bytes data_file_name) }
        ensures names { HasNewNames result }
    {
        let fields = new_fields(
            cluster_bits,
            refcount_order,
            backing_name.as_deref(),
            backing_format.as_deref(),
            data_file_name.as_deref(),
        );
        Header {
            fields,
            backing_name,
            backing_format,
            data_file_name,
        }
    }
}
