//! The subcommand `info`.
ghost use Rattle.std.specs.Prelude.{◌≤◌};
ghost use Rattle.image_access.specs.Moments.{ContentsStay};

use crate::failures::Failure;
use crate::headers::{Unread, numbers_of_unread};
use crate::json::print_text;
use crate::plain::print_plain;
use crate::sizes::Human;
use crate::words::Form;
use image_access::Storage;
use qcow2_image::ImageError;
use qcow2_metadata::{Header, MetadataError};
use std::alloc::Global;
use std::io;
use std::io::Write;

/// The compatible feature bit of lazy refcounts.
const LAZY_COUNTS: u64 = 1;

/// A file: its name, and its size on its device, if that is known.
#[derive(Clone, Copy)]
pub struct File<'a> {
    /// The name, as the words give it.
    pub name: &'a str,
    /// The number of bytes that it takes on its device, if that is known.
    pub room: Option<u64>,
}

/// The facts in the header of an image.
#[derive(Clone, Copy)]
struct Facts<'a> {
    version: u32,
    size: u64,
    cluster_size: u64,
    refcount_bits: u64,
    is_encrypted: bool,
    incompatible: u64,
    compatible: u64,
    autoclear: u64,
    is_zstd: bool,
    backing_name: Option<&'a str>,
    backing_format: Option<&'a str>,
    data_file_name: Option<&'a str>,
}

/// Prints the facts in the header of an image, also of one with unknown features. The image is only read. Refused for its header
/// 19 (metadata), 13 (limit) and 4 (unaligned table), and 14 (memory), 15 (storage) or `Unprinted` during the work.
pub fn info<S: Storage, W: Write>(
    alloc: Global,
    storage: &mut S,
    file: &File<'_>,
    form: Form,
    output: &mut W,
) -> Result<(), Failure>
    ensures reading { ContentsStay (S.view storage.old) (S.view storage.new) }
{
    let refusal = match Header::load(alloc, storage, false) {
        Ok(header) => {
            print(output, file, form, &facts_of(&header))?;
            return Ok(());
        }
        Err(refusal) => refusal,
    };
    if refusal == MetadataError::Format {
        if let Some(found) = numbers_of_unread(alloc, storage) {
            print(output, file, form, &facts_of_unread(&found))?;
            return Ok(());
        }
    }
    Err(Failure::Refused(ImageError::from(refusal)))
}

fn facts_of(header: &Header) -> Facts<'_> {
    Facts {
        version: header.version(),
        size: header.size(),
        cluster_size: header.cluster_size(),
        refcount_bits: 1 << header.refcount_order(),
        is_encrypted: false,
        incompatible: header.incompatible(),
        compatible: header.compatible(),
        autoclear: header.autoclear(),
        is_zstd: false,
        backing_name: text(header.backing_name()),
        backing_format: text(header.backing_format()),
        data_file_name: text(header.data_file_name()),
    }
}

fn facts_of_unread(found: &Unread) -> Facts<'_>
    requires bits { found.now.cluster_bits ≤ 21 }
    requires order { found.now.refcount_order ≤ 6 }
{
    Facts {
        version: found.version,
        size: found.size,
        cluster_size: 1 << found.cluster_bits,
        refcount_bits: 1 << found.refcount_order,
        is_encrypted: found.is_encrypted,
        incompatible: found.incompatible,
        compatible: found.compatible,
        autoclear: 0,
        is_zstd: found.is_zstd,
        backing_name: text(found.backing_name.as_ref()),
        backing_format: None,
        data_file_name: None,
    }
}

fn text(name: Option<&String>) -> Option<&str> {
    match name {
        Some(name) => Some(name.as_str()),
        None => None,
    }
}

fn print<W: Write>(
    output: &mut W,
    file: &File<'_>,
    form: Form,
    facts: &Facts<'_>,
) -> io::Result<()> {
    match form {
        Form::Text => print_lines(output, file, facts),
        Form::Json => print_object(output, file, facts),
    }
}

fn print_lines<W: Write>(output: &mut W, file: &File<'_>, facts: &Facts<'_>) -> io::Result<()> {
    let size = facts.size;
    let human = Human(size);
    let cluster = facts.cluster_size;
    print_line(output, "image: ", file.name)?;
    writeln!(output, "file format: qcow2")?;
    writeln!(output, "virtual size: {human} ({size} bytes)")?;
    if let Some(room) = file.room {
        let human = Human(room);
        writeln!(output, "disk size: {human}")?;
    }
    if facts.is_encrypted {
        writeln!(output, "encrypted: yes")?;
    }
    writeln!(output, "cluster_size: {cluster}")?;
    if is_dirty(facts) {
        writeln!(output, "cleanly shut down: no")?;
    }
    if let Some(name) = facts.backing_name {
        print_line(output, "backing file: ", name)?;
    }
    if let Some(format) = facts.backing_format {
        print_line(output, "backing file format: ", format)?;
    }
    print_features(output, facts)
}

// Prints a line with a name, which the author of the image chose.
fn print_line<W: Write>(output: &mut W, key: &str, name: &str) -> io::Result<()> {
    write!(output, "{key}")?;
    print_plain(output, name)?;
    writeln!(output)
}

fn print_features<W: Write>(output: &mut W, facts: &Facts<'_>) -> io::Result<()> {
    let compat = compat_of(facts);
    let compression = compression_of(facts);
    let bits = facts.refcount_bits;
    writeln!(output, "Format specific information:")?;
    writeln!(output, "    compat: {compat}")?;
    writeln!(output, "    compression type: {compression}")?;
    if facts.version < 3 {
        return writeln!(output, "    refcount bits: {bits}");
    }
    let lazy = has_lazy_counts(facts);
    let corrupt = is_corrupt(facts);
    let extended = has_extended_entries(facts);
    writeln!(output, "    lazy refcounts: {lazy}")?;
    writeln!(output, "    refcount bits: {bits}")?;
    print_data_file(output, facts)?;
    writeln!(output, "    corrupt: {corrupt}")?;
    writeln!(output, "    extended l2: {extended}")
}

fn print_data_file<W: Write>(output: &mut W, facts: &Facts<'_>) -> io::Result<()> {
    if let Some(name) = facts.data_file_name {
        print_line(output, "    data file: ", name)?;
    }
    if has_data_file(facts) {
        let raw = is_raw_data(facts);
        writeln!(output, "    data file raw: {raw}")?;
    }
    Ok(())
}

fn print_object<W: Write>(output: &mut W, file: &File<'_>, facts: &Facts<'_>) -> io::Result<()> {
    let size = facts.size;
    let cluster = facts.cluster_size;
    let dirty = is_dirty(facts);
    writeln!(output, "{{")?;
    print_named(output, "    \"filename\": ", file.name)?;
    writeln!(output, "    \"format\": \"qcow2\",")?;
    writeln!(output, "    \"virtual-size\": {size},")?;
    writeln!(output, "    \"cluster-size\": {cluster},")?;
    if let Some(room) = file.room {
        writeln!(output, "    \"actual-size\": {room},")?;
    }
    if facts.is_encrypted {
        writeln!(output, "    \"encrypted\": true,")?;
    }
    if let Some(name) = facts.backing_name {
        print_named(output, "    \"backing-filename\": ", name)?;
    }
    if let Some(format) = facts.backing_format {
        print_named(output, "    \"backing-filename-format\": ", format)?;
    }
    writeln!(output, "    \"format-specific\": {{")?;
    writeln!(output, "        \"type\": \"qcow2\",")?;
    print_features_object(output, facts)?;
    writeln!(output, "    }},")?;
    writeln!(output, "    \"dirty-flag\": {dirty}")?;
    writeln!(output, "}}")
}

fn print_features_object<W: Write>(output: &mut W, facts: &Facts<'_>) -> io::Result<()> {
    let compat = compat_of(facts);
    let compression = compression_of(facts);
    let bits = facts.refcount_bits;
    writeln!(output, "        \"data\": {{")?;
    writeln!(output, "            \"compat\": \"{compat}\",")?;
    writeln!(
        output,
        "            \"compression-type\": \"{compression}\","
    )?;
    if facts.version >= 3 {
        let lazy = has_lazy_counts(facts);
        let corrupt = is_corrupt(facts);
        let extended = has_extended_entries(facts);
        writeln!(output, "            \"lazy-refcounts\": {lazy},")?;
        print_data_file_object(output, facts)?;
        writeln!(output, "            \"corrupt\": {corrupt},")?;
        writeln!(output, "            \"extended-l2\": {extended},")?;
    }
    writeln!(output, "            \"refcount-bits\": {bits}")?;
    writeln!(output, "        }}")
}

fn print_data_file_object<W: Write>(output: &mut W, facts: &Facts<'_>) -> io::Result<()> {
    if let Some(name) = facts.data_file_name {
        print_named(output, "            \"data-file\": ", name)?;
    }
    if has_data_file(facts) {
        let raw = is_raw_data(facts);
        writeln!(output, "            \"data-file-raw\": {raw},")?;
    }
    Ok(())
}

fn print_named<W: Write>(output: &mut W, key: &str, text: &str) -> io::Result<()> {
    write!(output, "{key}")?;
    print_text(output, text)?;
    writeln!(output, ",")
}

// The version, in the words of QEMU's tools.
fn compat_of(facts: &Facts<'_>) -> &'static str {
    if facts.version < 3 { "0.10" } else { "1.1" }
}

fn compression_of(facts: &Facts<'_>) -> &'static str {
    if facts.is_zstd { "zstd" } else { "zlib" }
}

fn has_lazy_counts(facts: &Facts<'_>) -> bool {
    facts.compatible & LAZY_COUNTS != 0
}

fn is_dirty(facts: &Facts<'_>) -> bool {
    facts.incompatible & 1 != 0
}

fn is_corrupt(facts: &Facts<'_>) -> bool {
    facts.incompatible & 2 != 0
}

fn has_data_file(facts: &Facts<'_>) -> bool {
    facts.incompatible & 4 != 0
}

fn has_extended_entries(facts: &Facts<'_>) -> bool {
    facts.incompatible & 16 != 0
}

// Whether the bytes of the data file are those of the disk, each at its own offset.
fn is_raw_data(facts: &Facts<'_>) -> bool {
    facts.autoclear & 2 != 0
}
