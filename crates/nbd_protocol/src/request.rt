//! Requests of a client.
ghost use Rattle.std.specs.Prelude.{◌≡◌};
ghost use Rattle.nbd_protocol.specs.Requests.{command_of, flags_of, request_in};

use crate::reading::{u16_at, u32_at, u64_at};

/// The length of a request, in bytes, without the payload of a write.
pub(crate) const REQUEST: usize = 28;

const MAGIC: u32 = 0x2560_9513;

/// The command of a request.
#[derive(Clone, Copy)]
pub(crate) enum Command {
    Read,
    Write,
    Disconnect,
    Flush,
    Trim,
    Cache,
    WriteZeroes,
    BlockStatus,
    Unknown,
}

/// The flags of a request.
#[derive(Clone, Copy)]
pub(crate) struct Flags {
    /// FUA: the reply comes when the change would survive a power loss.
    pub(crate) durable: bool,
    /// NO_HOLE: zeros stay allocated in the file.
    pub(crate) keeps_place: bool,
    /// REQ_ONE: only one extent is asked for.
    pub(crate) one_extent: bool,
    /// A bit that the protocol doesn't define is set.
    pub(crate) unknown: bool,
}

/// A request for a range of the disk, in bytes. The client chose the cookie, which comes back in the reply.
#[derive(Clone, Copy)]
pub(crate) struct Request {
    pub(crate) flags: Flags,
    pub(crate) command: Command,
    pub(crate) cookie: u64,
    pub(crate) offset: u64,
    pub(crate) length: u32,
}

fn command_of(number: u16) -> Command
    ensures { result ≡ command_of number }
{
    match number {
        0 => Command::Read,
        1 => Command::Write,
        2 => Command::Disconnect,
        3 => Command::Flush,
        4 => Command::Trim,
        5 => Command::Cache,
        6 => Command::WriteZeroes,
        7 => Command::BlockStatus,
        _ => Command::Unknown,
    }
}

fn flags_of(bits: u16) -> Flags
    ensures { result ≡ flags_of bits }
{
    Flags {
        durable: bits % 2 == 1,
        keeps_place: bits / 2 % 2 == 1,
        one_extent: bits / 8 % 2 == 1,
        unknown: bits >= 16,
    }
}

/// Reads a request; None if the bytes are no request.
#[tactic(auto, unfolding(crate::specs::Requests::request_in))]
pub(crate) fn decode(bytes: &[u8]) -> Option<Request>
    ensures { result ≡ request_in bytes.now }
{
    let (magic, rest) = u32_at(bytes)?;
    let (flags, rest) = u16_at(rest)?;
    let (command, rest) = u16_at(rest)?;
    let (cookie, rest) = u64_at(rest)?;
    let (offset, rest) = u64_at(rest)?;
    let (length, _) = u32_at(rest)?;
    if magic != MAGIC {
        return None;
    }
    Some(Request {
        flags: flags_of(flags),
        command: command_of(command),
        cookie,
        offset,
        length,
    })
}
