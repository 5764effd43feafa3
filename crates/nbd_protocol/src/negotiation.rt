//! The negotiation, up to the first request.
ghost use Rattle.std.specs.Prelude.{◌≤◌, List, OnOk, length, ℕ};
ghost use Rattle.std.specs.Io.KnownBytes.{Appends, Consumes};

use crate::options::{
    Contexts, Kind, OPTION, OptionHeader, export_name, kind_of, option_header, push_greeting,
    push_reply, read_contexts,
};
use crate::replies::ALLOCATION;
use std::alloc::{AllocError, Global};
use std::io;
use std::io::{ErrorKind, Read, Write};

// The greatest length of an option's data.
const MOST: u32 = 65536;

const ACK: u32 = 1;

const SERVER: u32 = 2;

const INFO: u32 = 3;

const META: u32 = 4;

const UNSUPPORTED: u32 = 0x8000_0001;

const INVALID: u32 = 0x8000_0003;

const UNKNOWN: u32 = 0x8000_0006;

const CONTEXT: &[u8] = b"base:allocation";

/// The export that is served.
#[derive(Clone, Copy)]
pub(crate) struct Export {
    /// The size of the disk, in bytes.
    pub(crate) size: u64,
    /// The transmission flags.
    pub(crate) flags: u16,
}

/// The result of the negotiation.
#[derive(Clone, Copy)]
pub(crate) struct Agreed {
    /// Replies are structured.
    pub(crate) structured: bool,
    /// BLOCK_STATUS is allowed.
    pub(crate) allocation: bool,
    // No zeros follow the answer to EXPORT_NAME.
    no_zeroes: bool,
}

/// How the negotiation continues after an option.
#[derive(Clone, Copy, PartialEq, Eq)]
enum Next {
    Option,
    Requests,
    End,
}

/// Negotiates with a client. None if the client ends the negotiation.
pub(crate) fn negotiate<R: Read, W: Write>(
    alloc: Global,
    reader: &mut R,
    writer: &mut W,
    export: Export,
) -> io::Result<Option<Agreed>>
    ensures { OnOk result ((heard said : List ℕ) × Consumes (R.remaining reader.old) (R.remaining reader.new) heard
        × Appends (W.contents writer.old) (W.contents writer.new) said) }
{
    let mut out = Vec::new(alloc);
    let mut data = Vec::new(alloc);
    push_greeting(&mut out)?;
    send(writer, &out)?;
    let mut agreed = Agreed {
        structured: false,
        allocation: false,
        no_zeroes: client_flags(reader)?,
    };
    for _ in 0..u64::MAX {
        let header = next_option(reader, &mut data)?;
        out.clear();
        let next = answer(&mut out, header.option, &data, export, &mut agreed)?;
        send(writer, &out)?;
        match next {
            Next::Option => {}
            Next::Requests => return Ok(Some(agreed)),
            Next::End => return Ok(None),
        }
    }
    Ok(None)
}

/// Writes bytes, and flushes.
#[tactic(auto, using(crate::proofs::Sends::appends_keeps))]
pub(crate) fn send<W: Write>(writer: &mut W, bytes: &[u8]) -> io::Result<()>
    ensures { OnOk result (Appends (W.contents writer.old) (W.contents writer.new) bytes.now) }
{
    writer.write_all(bytes)?;
    writer.flush()?;
    Ok(())
}

// Reads the flags of a client: whether it wants no zeros after EXPORT_NAME. Other flags are refused.
fn client_flags<R: Read>(reader: &mut R) -> io::Result<bool>
    ensures { OnOk result ((heard : List ℕ) × Consumes (R.remaining reader.old) (R.remaining reader.new) heard) }
{
    let mut bytes = [0; 4];
    reader.read_exact(&mut bytes)?;
    match u32::from_be_bytes(bytes) {
        1 => Ok(false),
        3 => Ok(true),
        _ => Err(io::Error::new(ErrorKind::InvalidData, "unknown flags of the client")),
    }
}

// Reads an option and its data. An option with too much data is refused.
fn next_option<R: Read>(reader: &mut R, room: &mut Vec<u8>) -> io::Result<OptionHeader>
    ensures bounded { OnOk result (length room.new.items ≤ 65536) }
    ensures heard { OnOk result ((heard : List ℕ) × Consumes (R.remaining reader.old) (R.remaining reader.new) heard) }
{
    let mut bytes = [0; OPTION];
    reader.read_exact(&mut bytes)?;
    let Some(header) = option_header(&bytes) else {
        return Err(io::Error::new(ErrorKind::InvalidData, "no option"));
    };
    if header.length > MOST {
        return Err(io::Error::new(ErrorKind::InvalidData, "an option with too much data"));
    }
    room.clear();
    room.resize(header.length as usize, 0)?;
    reader.read_exact(room)?;
    Ok(header)
}

// Appends the replies to an option.
fn answer(
    out: &mut Vec<u8>,
    option: u32,
    data: &[u8],
    export: Export,
    agreed: &mut Agreed,
) -> Result<Next, AllocError> {
    match kind_of(option) {
        Kind::ExportName => return begin(out, data, export, agreed.no_zeroes),
        Kind::Abort => {
            push_reply(out, option, ACK, &[])?;
            return Ok(Next::End);
        }
        Kind::List => list(out, option, data)?,
        Kind::Info => {
            inform(out, option, data, export)?;
        }
        Kind::Go => {
            if inform(out, option, data, export)? {
                return Ok(Next::Requests);
            }
        }
        Kind::StructuredReply if data.is_empty() => {
            agreed.structured = true;
            push_reply(out, option, ACK, &[])?;
        }
        Kind::StructuredReply => push_reply(out, option, INVALID, &[])?,
        Kind::ListMeta => list_contexts(out, option, data, agreed.structured)?,
        Kind::SetMeta => agreed.allocation = set_contexts(out, option, data, agreed.structured)?,
        Kind::Unknown => push_reply(out, option, UNSUPPORTED, &[])?,
    }
    Ok(Next::Option)
}

// EXPORT_NAME, which has no reply of its own. Another export than the served one ends the connection.
fn begin(
    out: &mut Vec<u8>,
    name: &[u8],
    export: Export,
    no_zeroes: bool,
) -> Result<Next, AllocError> {
    if !name.is_empty() {
        return Ok(Next::End);
    }
    push_export(out, export)?;
    if !no_zeroes {
        out.extend_from_slice(&[0; 124])?;
    }
    Ok(Next::Requests)
}

fn push_export(out: &mut Vec<u8>, export: Export) -> Result<(), AllocError> {
    out.extend_from_slice(&export.size.to_be_bytes())?;
    out.extend_from_slice(&export.flags.to_be_bytes())?;
    Ok(())
}

// LIST: there is one export, whose name is empty.
fn list(out: &mut Vec<u8>, option: u32, data: &[u8]) -> Result<(), AllocError> {
    if !data.is_empty() {
        return push_reply(out, option, INVALID, &[]);
    }
    push_reply(out, option, SERVER, &0u32.to_be_bytes())?;
    push_reply(out, option, ACK, &[])
}

// Appends the size of the export and the limits of its requests, and returns whether the export is the requested one.
fn inform(out: &mut Vec<u8>, option: u32, data: &[u8], export: Export) -> Result<bool, AllocError> {
    match export_name(data) {
        None => {
            push_reply(out, option, INVALID, &[])?;
            Ok(false)
        }
        Some(name) if !name.is_empty() => {
            push_reply(out, option, UNKNOWN, &[])?;
            Ok(false)
        }
        Some(_) => {
            let [a, b, c, d, e, f, g, h] = export.size.to_be_bytes();
            let [i, j] = export.flags.to_be_bytes();
            push_reply(out, option, INFO, &[0, 0, a, b, c, d, e, f, g, h, i, j])?;
            push_reply(
                out,
                option,
                INFO,
                &[0, 3, 0, 0, 0, 1, 0, 0, 16, 0, 2, 0, 0, 0],
            )?;
            push_reply(out, option, ACK, &[])?;
            Ok(true)
        }
    }
}

// Appends the only context, with a number.
fn push_context(out: &mut Vec<u8>, option: u32, number: u32) -> Result<(), AllocError> {
    let mut data = [0; 19];
    data[..4].copy_from_slice(&number.to_be_bytes());
    data[4..].copy_from_slice(CONTEXT);
    push_reply(out, option, META, &data)
}

// Reads which contexts of the export are asked for, or appends a refusal.
fn asked_contexts(
    out: &mut Vec<u8>,
    option: u32,
    data: &[u8],
    structured: bool,
) -> Result<Option<Contexts>, AllocError> {
    match read_contexts(data) {
        Some(found) if structured && found.is_served => Ok(Some(found)),
        Some(_) if structured => {
            push_reply(out, option, UNKNOWN, &[])?;
            Ok(None)
        }
        _ => {
            push_reply(out, option, INVALID, &[])?;
            Ok(None)
        }
    }
}

fn list_contexts(
    out: &mut Vec<u8>,
    option: u32,
    data: &[u8],
    structured: bool,
) -> Result<(), AllocError> {
    if let Some(found) = asked_contexts(out, option, data, structured)? {
        if found.is_empty || found.allocation || found.base {
            push_context(out, option, 0)?;
        }
        push_reply(out, option, ACK, &[])?;
    }
    Ok(())
}

// SET_META_CONTEXT: returns whether the context is set.
fn set_contexts(
    out: &mut Vec<u8>,
    option: u32,
    data: &[u8],
    structured: bool,
) -> Result<bool, AllocError> {
    match asked_contexts(out, option, data, structured)? {
        Some(found) => {
            if found.allocation {
                push_context(out, option, ALLOCATION)?;
            }
            push_reply(out, option, ACK, &[])?;
            Ok(found.allocation)
        }
        None => Ok(false),
    }
}
