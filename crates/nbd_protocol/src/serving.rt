//! Answering requests, one after another.
ghost use Rattle.std.specs.Prelude.{◌≡◌, ◌⊎◌, ◌≤◌, IfOk, List, [], OnOk, Ok, Some, length, true, ℕ};
ghost use Rattle.std.specs.Io.KnownBytes.{Appends, Consumes};
ghost use Rattle.nbd_protocol.specs.Commands.{HasPayload, PersistsLast};
ghost use Rattle.nbd_protocol.specs.Conversations.{AnswersLookup, AnswersRead, AnswersStatus, Conversation, Deals, Says, Served, way_of};
ghost use Rattle.nbd_protocol.specs.Devices.{Persists};
ghost use Rattle.nbd_protocol.specs.Replies.{extents_reply, read_reply, status_reply};
ghost use Rattle.nbd_protocol.specs.Requests.{request_in};
ghost use Rattle.nbd_protocol.specs.declared.request.Command.TheVariants.{Write as CommandWrite};
ghost use Rattle.nbd_protocol.specs.declared.way.Way.TheVariants.{Payload};

use crate::commands::{MOST, extents, perform, persist, read_disk};
use crate::device::{Device, Errno};
use crate::negotiation::{Agreed, Export, negotiate, send};
use crate::replies::{Extent, push_extents, push_read_head, push_status};
use crate::request::{Command, REQUEST, Request, decode};
use crate::way::{Way, way_of};
use std::alloc::Global;
use std::io;
use std::io::{ErrorKind, Read, Write};

// The transmission flags: HAS_FLAGS, FLUSH, FUA, TRIM, WRITE_ZEROES and CACHE.
const WRITABLE: u16 = 1 + 4 + 8 + 32 + 64 + 1024;

// The transmission flags of a read-only export: HAS_FLAGS, READ_ONLY, FLUSH and CACHE.
const READ_ONLY: u16 = 1 + 2 + 4 + 1024;

// How many bytes are skipped at once.
const SKIPPED: usize = 4096;

/// Serves a device to one client: negotiates, and answers its requests in order. Ends when the client disconnects or its input
/// ends, and then flushes and syncs the device. An error means that the client broke the protocol, or could not be read or written.
pub fn serve<R: Read, W: Write, D: Device>(
    alloc: Global,
    reader: &mut R,
    writer: &mut W,
    device: &mut D,
) -> io::Result<()>
    ensures persisted { OnOk result (PersistsLast D.Flushed D.Synced device.new) }
    ensures talked { (talked : D) × OnOk result (Persists D.Flushed D.Synced talked device.new) × ((talked ≡ device.old)
        ⊎ Served D.view D.Flushed D.Synced R.remaining W.contents reader.old writer.old writer.new device.old talked) }
{
    let talked = talk(alloc, reader, writer, device);
    match persist(device) {
        Ok(()) => {
            ended(talked)?;
            Ok(())
        }
        Err(_) => Err(io::Error::new(ErrorKind::Other, "the last flush failed")),
    }
}

// The end of a client's input is no error.
fn ended(talked: io::Result<()>) -> io::Result<()> {
    match talked {
        Err(e) if e.kind() == ErrorKind::UnexpectedEof => Ok(()),
        other => other,
    }
}

// Negotiates with a client, and answers its requests.
fn talk<R: Read, W: Write, D: Device>(
    alloc: Global,
    reader: &mut R,
    writer: &mut W,
    device: &mut D,
) -> io::Result<()>
    ensures { (device.new ≡ device.old)
        ⊎ Served D.view D.Flushed D.Synced R.remaining W.contents
        reader.old writer.old writer.new device.old device.new }
{
    let flags = if device.is_read_only() {
        READ_ONLY
    } else {
        WRITABLE
    };
    let export = Export {
        size: device.size(),
        flags,
    };
    match negotiate(alloc, reader, writer, export)? {
        Some(agreed) => answer_all(alloc, reader, writer, device, agreed),
        None => Ok(()),
    }
}

// Buffers for a payload and for a reply, which grow up to the greatest ones.
#[derive(Drop)]
struct Room {
    payload: Vec<u8>,
    reply: Vec<u8>,
}

// Answers requests until the client disconnects.
fn answer_all<R: Read, W: Write, D: Device>(
    alloc: Global,
    reader: &mut R,
    writer: &mut W,
    device: &mut D,
    agreed: Agreed,
) -> io::Result<()>
    ensures { Conversation D.view D.Flushed D.Synced agreed.structured R.remaining W.contents agreed.allocation
        reader.old writer.old writer.new device.old device.new }
{
    let mut room = Room {
        payload: Vec::new(alloc),
        reply: Vec::new(alloc),
    };
    for _ in 0..u64::MAX {
        let request = next_request(reader)?;
        if let Command::Disconnect = request.command {
            return Ok(());
        }
        deal(alloc, reader, writer, device, agreed, &request, &mut room)?;
    }
    Ok(())
}

// Reads the next request.
fn next_request<R: Read>(reader: &mut R) -> io::Result<Request>
    ensures { IfOk result (λ request. (head : List ℕ) × (length head ≡ 28) × (request_in head ≡ Some request)
        × Consumes (R.remaining reader.old) (R.remaining reader.new) head) }
{
    let mut bytes = [0; REQUEST];
    reader.read_exact(&mut bytes)?;
    match decode(&bytes) {
        Some(request) => Ok(request),
        None => Err(io::Error::new(ErrorKind::InvalidData, "no request")),
    }
}

// Handles a request: reads its payload, does what it asks for, and sends the reply.
fn deal<R: Read, W: Write, D: Device>(
    alloc: Global,
    reader: &mut R,
    writer: &mut W,
    device: &mut D,
    agreed: Agreed,
    request: &Request,
    room: &mut Room,
) -> io::Result<()>
    ensures { Deals D.view D.Flushed D.Synced agreed.structured R.remaining W.contents
        (way_of agreed.allocation request.now.command) request.now
        reader.old reader.new writer.old writer.new device.old device.new result }
{
    let structured = agreed.structured;
    match way_of(agreed.allocation, request.command) {
        Way::Bytes => answer_read(
            writer,
            device,
            structured,
            request,
            &mut room.payload,
            &mut room.reply,
        ),
        Way::Runs => answer_lookup(alloc, writer, device, request, &mut room.reply),
        Way::Payload => answer_write(reader, writer, device, structured, request, room),
        Way::Status => answer(
            writer,
            device,
            structured,
            request,
            &mut room.payload,
            &mut room.reply,
        ),
    }
}

// Reads the payload of a write, and answers it.
fn answer_write<R: Read, W: Write, D: Device>(
    reader: &mut R,
    writer: &mut W,
    device: &mut D,
    structured: bool,
    request: &Request,
    room: &mut Room,
) -> io::Result<()>
    ensures { request.now.command ≡ CommandWrite
        → Deals D.view D.Flushed D.Synced structured R.remaining W.contents Payload request.now
        reader.old reader.new writer.old writer.new device.old device.new result }
{
    let taken = read_payload(reader, request.length, &mut room.payload)?;
    if taken {
        return answer(
            writer,
            device,
            structured,
            request,
            &mut room.payload,
            &mut room.reply,
        );
    }
    let refused = Err(Errno::NoMemory);
    tell(writer, structured, request, &refused, &mut room.reply)
}

// Reads the payload of a write, and returns whether there was memory for it; if not, it is skipped. A payload that is too long is
// refused, and nothing of it is read.
fn read_payload<R: Read>(reader: &mut R, count: u32, buffer: &mut Vec<u8>) -> io::Result<bool>
    ensures bounded { length buffer.new.items ≤ 33554432 ⊎ (buffer.new.items ≡ buffer.old.items) }
    ensures taken { IfOk result (λ taken. taken ≡ true → (length buffer.new.items ≡ count)
        × Consumes (R.remaining reader.old) (R.remaining reader.new) buffer.new.items) }
    ensures skipped { OnOk result ((bytes : List ℕ) × (length bytes ≡ count)
        × Consumes (R.remaining reader.old) (R.remaining reader.new) bytes) }
{
    if count > MOST {
        return Err(io::Error::new(ErrorKind::InvalidData, "a payload that is too long"));
    }
    if let Err(_) = buffer.resize(count as usize, 0) {
        skip(reader, count)?;
        return Ok(false);
    }
    reader.read_exact(buffer)?;
    Ok(true)
}

// Reads and drops this many bytes.
fn skip<R: Read>(reader: &mut R, count: u32) -> io::Result<()>
    ensures { OnOk result ((bytes : List ℕ) × (length bytes ≡ count)
        × Consumes (R.remaining reader.old) (R.remaining reader.new) bytes) }
{
    let mut bytes = [0; SKIPPED];
    let mut rest = count as usize;
    while rest > 0 {
        let some = rest.min(SKIPPED);
        reader.read_exact(&mut bytes[..some])?;
        rest -= some;
    }
    Ok(())
}

// Sends a reply without data: that the request was done, or its error.
fn tell<W: Write>(
    writer: &mut W,
    structured: bool,
    request: &Request,
    status: &Result<(), Errno>,
    reply: &mut Vec<u8>,
) -> io::Result<()>
    ensures { OnOk result (Appends (W.contents writer.old) (W.contents writer.new)
        (status_reply structured request.now.cookie status.now)) }
{
    reply.clear();
    push_status(reply, structured, request.cookie, status)?;
    send(writer, reply)?;
    Ok(())
}

// Does what a request without a payload in its reply asks for, and sends the reply.
fn answer<W: Write, D: Device>(
    writer: &mut W,
    device: &mut D,
    structured: bool,
    request: &Request,
    buffer: &mut Vec<u8>,
    reply: &mut Vec<u8>,
) -> io::Result<()>
    ensures { HasPayload request.now buffer.old.items → Says W.contents writer.old writer.new result
        (λ told. AnswersStatus D.view D.Flushed D.Synced structured
        request.now buffer.old.items told device.old device.new) }
{
    let status = perform(device, request, buffer);
    tell(writer, structured, request, &status, reply)
}

// Answers a read with the bytes of the disk, or with an error.
fn answer_read<W: Write, D: Device>(
    writer: &mut W,
    device: &mut D,
    structured: bool,
    request: &Request,
    buffer: &mut Vec<u8>,
    reply: &mut Vec<u8>,
) -> io::Result<()>
    ensures { Says W.contents writer.old writer.new result
        (λ told. AnswersRead D.view D.Flushed D.Synced structured request.now [] told device.old device.new) }
{
    match read_disk(device, request, buffer) {
        Ok(()) => send_bytes(writer, structured, request, buffer, reply),
        Err(error) => tell(writer, structured, request, &Err(error), reply),
    }
}

// Sends bytes that were read.
#[tactic(auto, using(crate::proofs::Sends::appends_then))]
fn send_bytes<W: Write>(
    writer: &mut W,
    structured: bool,
    request: &Request,
    bytes: &[u8],
    reply: &mut Vec<u8>,
) -> io::Result<()>
    requires few { request.now.length ≤ 33554432 }
    requires count { length bytes.now ≡ request.now.length }
    ensures { OnOk result (Appends (W.contents writer.old) (W.contents writer.new)
        (read_reply structured request.now.cookie request.now.offset bytes.now (Ok tt))) }
{
    reply.clear();
    push_read_head(
        reply,
        structured,
        request.cookie,
        request.offset,
        request.length,
    )?;
    writer.write_all(reply)?;
    send(writer, bytes)?;
    Ok(())
}

// Answers BLOCK_STATUS with the runs of the range, or with an error.
fn answer_lookup<W: Write, D: Device>(
    alloc: Global,
    writer: &mut W,
    device: &mut D,
    request: &Request,
    reply: &mut Vec<u8>,
) -> io::Result<()>
    ensures { Says W.contents writer.old writer.new result
        (λ told. AnswersLookup D.view D.Flushed D.Synced true request.now [] told device.old device.new) }
{
    match extents(alloc, device, request) {
        Ok(found) => send_extents(writer, request, &found, reply),
        Err(error) => tell(writer, true, request, &Err(error), reply),
    }
}

// Answers BLOCK_STATUS with these runs.
fn send_extents<W: Write>(
    writer: &mut W,
    request: &Request,
    found: &[Extent],
    reply: &mut Vec<u8>,
) -> io::Result<()>
    requires { length found.now ≤ 1024 }
    ensures { OnOk result (Appends (W.contents writer.old) (W.contents writer.new)
        (extents_reply request.now.cookie found.now)) }
{
    reply.clear();
    push_extents(reply, request.cookie, found)?;
    send(writer, reply)?;
    Ok(())
}
