//! The subcommand `map`.
ghost use Rattle.std.specs.Prelude.{◌≡◌, ◌<◌, ◌≤◌, IfOk, IsTrue};

use crate::failures::Failure;
use crate::plain::print_plain;
use crate::words::Form;
use image_access::Storage;
use qcow2_image::{ImageError, MappingKind, Qcow2};
use qcow2_metadata::HeaderFields;
use std::alloc::Global;
use std::io;
use std::io::Write;

/// The mapping of a run of the disk.
#[derive(Clone, Copy, PartialEq, Eq)]
enum Content {
    /// Bytes of the file, from an offset on.
    Data { offset: u64 },
    /// Compressed data.
    Compressed,
    /// Zero clusters.
    Zero,
    /// Unmapped: zeros, if there is no backing disk.
    Unmapped { is_zero: bool },
}

/// A run of the disk that is mapped alike, from one offset to another.
#[derive(Clone, Copy)]
struct Run {
    start: u64,
    end: u64,
    content: Content,
}

impl Run {
    ghost use Rattle.std.specs.Prelude.{◌≡◌, ◌-◌};

    fn length(&self) -> u64
        ensures { result ≡ self.now.end - self.now.start }
    {
        self.end.saturating_sub(self.start)
    }
}

/// How a map is printed, and the offset from which on no table of the image maps its disk.
#[derive(Clone, Copy)]
struct Page<'a> {
    file: &'a str,
    form: Form,
    reach: u64,
}

/// Prints the mapping of each run of an image's disk. The image is opened for reading, without its backing disk, and its
/// storage is returned. Refused as `open_image` is: 19 (metadata), 13 (limit), 4 (unaligned table). An image with a data
/// file is refused 12 (dependency). All runs are looked up before any is printed. May be refused 4, 14 (memory), 15 (storage) or `Unprinted` during
/// the work.
pub fn map<S: Storage, W: Write>(
    alloc: Global,
    storage: S,
    file: &str,
    form: Form,
    output: &mut W,
) -> (S, Result<(), Failure>) {
    let mut storage = storage;
    let reach = match HeaderFields::load(alloc, &mut storage) {
        Ok(header) => reach_of(&header),
        Err(e) => return (storage, Err(Failure::Refused(ImageError::from(e)))),
    };
    match Qcow2::<S>::open_image(alloc, storage, false, 1) {
        Ok(mut image) => {
            let page = Page { file, form, reach };
            let printed = print_whole_map(&mut image, &page, output);
            (image.into_storage(), printed)
        }
        Err((storage, e)) => (storage, Err(Failure::Refused(e))),
    }
}

// The end of the part of the disk that the L1 table has entries for.
fn reach_of(header: &HeaderFields) -> u64
    requires { header.now.cluster_bits ≤ 21 }
{
    let cluster = 1u64 << header.cluster_bits;
    (cluster * cluster / 8).saturating_mul(u64::from(header.l1_entries))
}

// Prints a map, after all of it was looked up.
fn print_whole_map<S: Storage, W: Write>(
    image: &mut Qcow2<S>,
    page: &Page<'_>,
    output: &mut W,
) -> Result<(), Failure> {
    print_map(image, page, &mut io::sink())?;
    print_map(image, page, output)
}

fn print_map<S: Storage, W: Write>(
    image: &mut Qcow2<S>,
    page: &Page<'_>,
    output: &mut W,
) -> Result<(), Failure> {
    match page.form {
        Form::Text => {
            writeln!(
                output,
                "Offset          Length          Mapped to       File"
            )?;
            print_runs(image, page, output)
        }
        Form::Json => {
            write!(output, "[")?;
            print_runs(image, page, output)?;
            writeln!(output, "]")?;
            Ok(())
        }
    }
}

// Prints the runs. Neighbours that are mapped alike are one run.
fn print_runs<S: Storage, W: Write>(
    image: &mut Qcow2<S>,
    page: &Page<'_>,
    output: &mut W,
) -> Result<(), Failure> {
    let size = image.size();
    let mut run = Run {
        start: 0,
        end: 0,
        content: Content::Zero,
    };
    for _ in 0..u64::MAX {
        if run.end >= size {
            break;
        }
        let next = run_at(image, run.end, size, page.reach)?;
        if follows(&run, &next) {
            run = Run {
                start: run.start,
                end: next.end,
                content: run.content,
            };
        } else {
            print_run(output, page, &run)?;
            run = next;
        }
    }
    print_run(output, page, &run)?;
    Ok(())
}

// The run from an offset on. Where no table maps the disk, it goes up to the end of the disk.
fn run_at<S: Storage>(
    image: &mut Qcow2<S>,
    start: u64,
    size: u64,
    reach: u64,
) -> Result<Run, ImageError>
    requires { start < size }
    ensures start { IfOk result (λ run. run.start ≡ start) }
    ensures end { IfOk result (λ run. run.end ≤ size) }
    ensures rest { reach ≤ start → IfOk result (λ run. run.end ≡ size) }
{
    let is_zero = image.implicit_backing_file().is_none();
    if start >= reach {
        let content = Content::Unmapped { is_zero };
        return Ok(Run {
            start,
            end: size,
            content,
        });
    }
    let (mapping, length) = image.get_mapping(start, size - start)?;
    let content = match mapping.kind {
        MappingKind::Raw {
            place: _,
            offset,
            writable: _,
        } => Content::Data { offset },
        MappingKind::Special { offset: _ } => Content::Compressed,
        MappingKind::Zero { explicit: true } => Content::Zero,
        _ => Content::Unmapped { is_zero },
    };
    Ok(Run {
        start,
        end: start + length,
        content,
    })
}

// Whether a run continues another one.
fn follows(run: &Run, next: &Run) -> bool
    ensures { IsTrue result → run.now.end ≡ next.now.start }
{
    if run.end != next.start {
        return false;
    }
    match (run.content, next.content) {
        (Content::Data { offset }, Content::Data { offset: further }) => {
            offset.checked_add(run.length()) == Some(further)
        }
        (content, other) => content == other,
    }
}

fn print_run<W: Write>(output: &mut W, page: &Page<'_>, run: &Run) -> io::Result<()> {
    if run.start == run.end {
        return Ok(());
    }
    match page.form {
        Form::Text => print_row(output, page.file, run),
        Form::Json => print_entry(output, run),
    }
}

// Prints the row of a run. Only data has one.
fn print_row<W: Write>(output: &mut W, file: &str, run: &Run) -> io::Result<()> {
    match run.content {
        Content::Data { offset } => {
            print_column(output, run.start)?;
            print_column(output, run.length())?;
            print_column(output, offset)?;
        }
        Content::Compressed => {
            print_column(output, run.start)?;
            print_column(output, run.length())?;
            write!(output, "compressed      ")?;
        }
        _ => return Ok(()),
    }
    print_plain(output, file)?;
    writeln!(output)
}

// Prints a number like C's `%#-16x`, which writes 0 without `0x`.
fn print_column<W: Write>(output: &mut W, number: u64) -> io::Result<()> {
    if number == 0 {
        return write!(output, "0               ");
    }
    write!(output, "{number:<#16x}")
}

fn print_entry<W: Write>(output: &mut W, run: &Run) -> io::Result<()> {
    let start = run.start;
    let length = run.length();
    if start > 0 {
        writeln!(output, ",")?;
    }
    write!(
        output,
        "{{ \"start\": {start}, \"length\": {length}, \"depth\": 0, "
    )?;
    match run.content {
        Content::Data { offset } => write!(
            output,
            "\"present\": true, \"zero\": false, \"data\": true, \"offset\": {offset}}}"
        ),
        Content::Compressed => write!(
            output,
            "\"present\": true, \"zero\": false, \"data\": true, \"compressed\": true}}"
        ),
        Content::Zero => write!(
            output,
            "\"present\": true, \"zero\": true, \"data\": false}}"
        ),
        Content::Unmapped { is_zero } => write!(
            output,
            "\"present\": false, \"zero\": {is_zero}, \"data\": false}}"
        ),
    }
}
