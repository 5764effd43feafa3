//! The extensions of a header, and the names in cluster 0.

ghost use Rattle.std.specs.Prelude.{◌≡◌, ◌+◌, ◌<◌, ◌≤◌, List, [], ◌∷◌, ℕ, length, option_copied, IfOk, IfErr, OnOk, IfSome, IfNone, IsUtf8};
ghost use Rattle.qcow2_metadata.specs.Bytes.{byte_at};
ghost use Rattle.qcow2_metadata.specs.HeaderLoad.{first_so_far, AreNamed};
ghost use Rattle.qcow2_metadata.specs.Header.{AreExtensions, IsExtension, behind_extension, ExtensionsRead, BackingNameReads, cluster_size, backing_name, first_of_kind, backing_format_kind, data_file_kind};

use crate::big_endian::read_u32;
use crate::{HeaderFields, MetadataError};

/// The kind of the extension that names the backing file's format.
pub(crate) const BACKING_FORMAT: u32 = 0xe279_2aca;

/// The kind of the extension that names the external data file.
pub(crate) const DATA_FILE: u32 = 0x4441_5441;

#[derive(Clone, Copy)]
struct Extension<'a> {
    kind: u32,
    bytes: &'a [u8],
    next: usize,
}

/// The extension at a place of cluster 0, or None for their end.
fn extension_at(cluster: &[u8], place: usize) -> Result<Option<Extension<'_>>, MetadataError>
    requires few { length cluster.now ≤ 2097152 }
    requires near { place ≤ length cluster.now + 8 }
    ensures end { IfOk result (λ o. IfNone o (AreExtensions (byte_at cluster.now) (length cluster.now) place [])) }
    ensures one { IfOk result (λ o. IfSome o (λ e. IsExtension (byte_at cluster.now) (length cluster.now) place (e.kind, e.bytes.now))) }
    ensures next { IfOk result (λ o. IfSome o (λ e. e.next ≡ behind_extension place (length e.bytes.now))) }
    ensures err { IfErr result (λ e. (e ≡ MetadataError.Format)
        × ((list : List (ℕ × List ℕ)) → ¬ AreExtensions (byte_at cluster.now) (length cluster.now) place list)) }
{
    if place + 8 > cluster.len() {
        return Err(MetadataError::Format);
    }
    let kind = read_u32(cluster, place);
    if kind == 0 {
        return Ok(None);
    }
    let start = place + 8;
    let end = start + read_u32(cluster, place + 4) as usize;
    if end > cluster.len() {
        return Err(MetadataError::Format);
    }
    let bytes = &cluster[start..end];
    let next = start + bytes.len().div_ceil(8) * 8;
    Ok(Some(Extension { kind, bytes, next }))
}

/// The bytes as text.
pub(crate) fn text(bytes: &[u8]) -> Result<&str, MetadataError>
    ensures ok { IfOk result (λ name. (name.now ≡ bytes.now) × IsUtf8 bytes.now) }
    ensures err { IfErr result (λ e. (e ≡ MetadataError.Format) × ¬ IsUtf8 bytes.now) }
{
    match str::from_utf8(bytes) {
        Ok(name) => Ok(name),
        Err(_) => Err(MetadataError::Format),
    }
}

/// The name that an extension of this kind gives, if none did before.
fn name_so_far<'a>(
    kind: u32,
    so_far: Option<&'a str>,
    extension: &Extension<'a>,
) -> Result<Option<&'a str>, MetadataError>
    ensures name { IfOk result (λ name. option_copied name ≡ first_so_far kind (option_copied so_far.entry)
        ((extension.now.kind, extension.now.bytes.now) ∷ [])) }
    ensures text { OnOk result (extension.now.kind ≡ kind → IsUtf8 extension.now.bytes.now) }
    ensures err { IfErr result (λ e. (e ≡ MetadataError.Format) × (extension.now.kind ≡ kind) × ¬ IsUtf8 extension.now.bytes.now) }
{
    if extension.kind != kind {
        return Ok(so_far);
    }
    let name = text(extension.bytes)?;
    Ok(so_far.or(Some(name)))
}

/// The names that the extensions give: the first of each kind.
#[derive(Clone, Copy)]
pub(crate) struct ExtensionNames<'a> {
    /// The format of the backing file.
    pub backing_format: Option<&'a str>,
    /// The name of the external data file.
    pub data_file_name: Option<&'a str>,
}

/// The names that the extensions from a place of cluster 0 on give.
pub(crate) fn read_extensions(
    cluster: &[u8],
    start: usize,
) -> Result<ExtensionNames<'_>, MetadataError>
    requires few { length cluster.now ≤ 2097152 }
    requires near { start ≤ length cluster.now }
    ensures ok { IfOk result (λ names. AreNamed (byte_at cluster.now) (length cluster.now) start
        (option_copied names.backing_format) (option_copied names.data_file_name)) }
    ensures err { IfErr result (λ e. (e ≡ MetadataError.Format) × ¬ ExtensionsRead (byte_at cluster.now) (length cluster.now) start) }
{
    let mut backing_format = None;
    let mut data_file_name = None;
    let mut place = start;
    while let Some(extension) = extension_at(cluster, place)? {
        backing_format = name_so_far(BACKING_FORMAT, backing_format, &extension)?;
        data_file_name = name_so_far(DATA_FILE, data_file_name, &extension)?;
        place = extension.next;
    }
    Ok(ExtensionNames {
        backing_format,
        data_file_name,
    })
}
