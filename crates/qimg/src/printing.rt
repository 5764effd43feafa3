ghost use Rattle.std.specs.Prelude.{◌≡◌, ◌≤◌, ◌∷◌, ◌++◌, [], length, OnOk, IfSome};
ghost use Rattle.std.specs.List.{list_any};
ghost use Rattle.std.specs.Io.KnownBytes.{Appends};
ghost use Rattle.hex.specs.Hex.{encode_lower};
ghost use Rattle.qimg.specs.Printing.{bytes_line, line_of, mapping_line, text_of, is_refusal, refusal_line};

use qcow2_image::{ImageError, Mapping, MappingKind, Place};
use qcow2_session::Reply;
use std::io;
use std::io::Write;

/// Prints the line of a reply. Refused as the output refuses.
pub fn print_reply<W: Write>(output: &mut W, reply: &Reply) -> io::Result<()>
    ensures { OnOk result (IfSome (line_of reply.now) (λ line. Appends (W.contents output.old) (W.contents output.new) (line ++ 10 ∷ []))) }
{
    match reply {
        Reply::Done | Reply::NotCompressed(None) => writeln!(output, "ok"),
        Reply::NotCompressed(Some(offset)) => writeln!(output, "not compressed {offset}"),
        Reply::Bytes(bytes) => print_bytes(output, bytes),
        Reply::Mapping(mapping) => print_mapping(output, mapping),
        Reply::Prepared {
            offset,
            length,
            existing,
        } => {
            let kind = if *existing { "existing" } else { "prepared" };
            writeln!(output, "{kind} {offset} {length}")
        }
        Reply::Range { offset, length } => writeln!(output, "range {offset} {length}"),
        Reply::Shrunk(offset) => writeln!(output, "shrunk {offset}"),
        Reply::Size(size) => writeln!(output, "size {size}"),
        Reply::Leaked(clusters) => writeln!(output, "leaks {clusters}"),
        Reply::Refused(e) | Reply::WriteRefused(e, 0) => print_refusal(output, e),
        Reply::WriteRefused(e, written) => {
            let (number, name) = (e.number(), e.name());
            writeln!(output, "refused {number} {name} after {written}")
        }
        Reply::Misuse => writeln!(output, "misuse"),
    }
}

/// Whether some reply is a refusal, in whole or in part, or a misuse.
pub fn any_refused(replies: &[Reply]) -> bool
    ensures { result ≡ list_any is_refusal replies.now }
{
    replies.iter().any(|reply| is_refused(reply))
}

/// Whether a reply is a refusal, in whole or in part, or a misuse.
pub fn is_refused(reply: &Reply) -> bool
    ensures { result ≡ is_refusal reply.now }
{
    matches!(
        reply,
        Reply::Refused(_) | Reply::WriteRefused(_, _) | Reply::Misuse
    )
}

/// Prints the lines of replies. Refused as the output refuses.
pub fn print_replies<W: Write>(output: &mut W, replies: &[Reply]) -> io::Result<()>
    ensures { OnOk result (IfSome (text_of replies.now) (Appends (W.contents output.old) (W.contents output.new))) }
{
    for reply in replies {
        print_reply(output, reply)?;
    }
    Ok(())
}

/// Prints the line of a refusal: its number and its name. Refused as the output refuses.
pub fn print_refusal<W: Write>(output: &mut W, e: &ImageError) -> io::Result<()>
    ensures { OnOk result (Appends (W.contents output.old) (W.contents output.new) (refusal_line e.now ++ 10 ∷ [])) }
{
    let (number, name) = (e.number(), e.name());
    writeln!(output, "refused {number} {name}")
}

fn print_mapping<W: Write>(output: &mut W, mapping: &Mapping) -> io::Result<()>
    ensures { OnOk result (Appends (W.contents output.old) (W.contents output.new) (mapping_line mapping.now.kind mapping.now.length ++ 10 ∷ [])) }
{
    let length = mapping.length;
    match mapping.kind {
        MappingKind::Raw {
            place,
            offset,
            writable,
        } => {
            let place = match place {
                Place::Image => "image",
                Place::DataFile => "data",
            };
            let access = if writable { "rw" } else { "ro" };
            writeln!(output, "raw {place} {offset} {length} {access}")
        }
        MappingKind::Indirect { offset } => writeln!(output, "backing {offset} {length}"),
        MappingKind::Zero { explicit } => {
            let kind = if explicit { "explicit" } else { "implicit" };
            writeln!(output, "zero {length} {kind}")
        }
        MappingKind::Eof => writeln!(output, "eof"),
        MappingKind::Special { offset } => writeln!(output, "special {offset} {length}"),
    }
}

fn print_bytes<W: Write>(output: &mut W, bytes: &[u8]) -> io::Result<()>
    ensures { OnOk result (Appends (W.contents output.old) (W.contents output.new) (bytes_line bytes.now ++ 10 ∷ [])) }
{
    if bytes.is_empty() {
        return writeln!(output, "data -");
    }
    write!(output, "data ")?;
    print_hex(output, bytes)?;
    writeln!(output)
}

#[tactic(auto, using(crate::proofs::Hex::prints))]
fn print_hex<W: Write>(output: &mut W, bytes: &[u8]) -> io::Result<()>
    ensures { OnOk result (Appends (W.contents output.old) (W.contents output.new) (encode_lower bytes.now)) }
{
    let mut rest = bytes;
    while !rest.is_empty() {
        let (chunk, others) = rest.split_at(rest.len().min(512));
        print_chunk(output, chunk)?;
        rest = others;
    }
    Ok(())
}

fn print_chunk<W: Write>(output: &mut W, bytes: &[u8]) -> io::Result<()>
    requires { length bytes.now ≤ 512 }
    ensures { OnOk result (Appends (W.contents output.old) (W.contents output.new) (encode_lower bytes.now)) }
{
    let mut digits = [0; 1024];
    let digits = &mut digits[..2 * bytes.len()];
    if hex::encode_to_slice(bytes, digits).is_err() {
        return Err(io::Error::from(io::ErrorKind::InvalidData));
    }
    output.write_all(digits)
}
