//! Options of the negotiation.
ghost use Rattle.std.specs.Prelude.{◌≡◌, ◌^◌, ◌<◌, ◌++◌, OnOk, length};
ghost use Rattle.std.specs.Option.{option_map};
ghost use Rattle.nbd_protocol.specs.Options.{header_in, kind_of, name_in, option_reply, reply_head};

use crate::reading::{string_at, u16_at, u32_at, u64_at};
use std::alloc::AllocError;

/// The length of an option's header, in bytes.
pub(crate) const OPTION: usize = 16;

const MAGIC: u64 = 0x4e42_444d_4147_4943;

const OPTION_MAGIC: u64 = 0x4948_4156_454f_5054;

const REPLY_MAGIC: u64 = 0x0003_e889_0455_65a9;

// Fixed newstyle, and no zeros after EXPORT_NAME.
const FLAGS: u16 = 3;

/// The options of a client.
#[derive(Clone, Copy)]
pub(crate) enum Kind {
    ExportName,
    Abort,
    List,
    Info,
    Go,
    StructuredReply,
    ListMeta,
    SetMeta,
    Unknown,
}

/// An option, and the length of its data.
#[derive(Clone, Copy)]
pub(crate) struct OptionHeader {
    pub(crate) option: u32,
    pub(crate) length: u32,
}

/// The meaning of an option's number.
pub(crate) fn kind_of(number: u32) -> Kind
    ensures { result ≡ kind_of number }
{
    match number {
        1 => Kind::ExportName,
        2 => Kind::Abort,
        3 => Kind::List,
        6 => Kind::Info,
        7 => Kind::Go,
        8 => Kind::StructuredReply,
        9 => Kind::ListMeta,
        10 => Kind::SetMeta,
        _ => Kind::Unknown,
    }
}

/// Reads the header of an option; None if the bytes are no such header.
#[tactic(auto, unfolding(crate::specs::Options::header_in))]
pub(crate) fn option_header(bytes: &[u8]) -> Option<OptionHeader>
    ensures { result ≡ header_in bytes.now }
{
    let (magic, rest) = u64_at(bytes)?;
    let (option, rest) = u32_at(rest)?;
    let (length, _) = u32_at(rest)?;
    if magic != OPTION_MAGIC {
        return None;
    }
    Some(OptionHeader { option, length })
}

/// The name of the export in the data of INFO and GO.
#[tactic(auto, unfolding(crate::specs::Options::name_in))]
pub(crate) fn export_name(bytes: &[u8]) -> Option<&[u8]>
    ensures { option_map (λ x. x.now) result ≡ name_in bytes.now }
{
    let (name, rest) = string_at(bytes)?;
    let (count, rest) = u16_at(rest)?;
    if rest.len() != 2 * usize::from(count) {
        return None;
    }
    Some(name)
}

/// The data of LIST_META_CONTEXT and SET_META_CONTEXT.
#[derive(Clone, Copy)]
pub(crate) struct Contexts {
    /// The export is the served one: its name is empty.
    pub(crate) is_served: bool,
    /// There is no query.
    pub(crate) is_empty: bool,
    /// The context `base:allocation` is named.
    pub(crate) allocation: bool,
    /// All contexts that begin with `base:` are named.
    pub(crate) base: bool,
}

/// Reads which contexts are asked for.
pub(crate) fn read_contexts(data: &[u8]) -> Option<Contexts> {
    let (name, rest) = string_at(data)?;
    let (count, rest) = u32_at(rest)?;
    let mut found = Contexts {
        is_served: name.is_empty(),
        is_empty: count == 0,
        allocation: false,
        base: false,
    };
    let mut rest = rest;
    for _ in 0..count {
        let (query, after) = string_at(rest)?;
        found.allocation |= query == b"base:allocation".as_slice();
        found.base |= query == b"base:".as_slice();
        rest = after;
    }
    if !rest.is_empty() {
        return None;
    }
    Some(found)
}

#[tactic(auto, unfolding(crate::specs::Options::reply_head))]
fn push_head(out: &mut Vec<u8>, option: u32, kind: u32, length: u32) -> Result<(), AllocError>
    ensures { OnOk result (out.new.items ≡ out.old.items ++ reply_head option kind length) }
{
    out.extend_from_slice(&REPLY_MAGIC.to_be_bytes())?;
    out.extend_from_slice(&option.to_be_bytes())?;
    out.extend_from_slice(&kind.to_be_bytes())?;
    out.extend_from_slice(&length.to_be_bytes())?;
    Ok(())
}

/// Appends a reply to an option.
pub(crate) fn push_reply(
    out: &mut Vec<u8>,
    option: u32,
    kind: u32,
    bytes: &[u8],
) -> Result<(), AllocError>
    requires { length bytes.now < 2 ^ 32 }
    ensures { OnOk result (out.new.items ≡ out.old.items ++ option_reply option kind bytes.now) }
{
    push_head(out, option, kind, bytes.len() as u32)?;
    out.extend_from_slice(bytes)?;
    Ok(())
}

/// Appends the greeting of the server.
pub(crate) fn push_greeting(out: &mut Vec<u8>) -> Result<(), AllocError> {
    out.extend_from_slice(&MAGIC.to_be_bytes())?;
    out.extend_from_slice(&OPTION_MAGIC.to_be_bytes())?;
    out.extend_from_slice(&FLAGS.to_be_bytes())?;
    Ok(())
}
