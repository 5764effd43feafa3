//! Encoding replies to requests.
ghost use Rattle.std.specs.Prelude.{◌≡◌, ◌+◌, ◌*◌, ◌^◌, ◌<◌, ◌++◌, length, OnOk};
ghost use Rattle.std.specs.List.{flat_map};
ghost use Rattle.nbd_protocol.specs.Replies.{simple_reply, chunk_start, chunk_head, done_reply, error_reply, status_reply, read_head, extent_bytes, extents_reply};

use crate::device::{Errno, State};
use std::alloc::AllocError;

const SIMPLE: u32 = 0x6744_6698;

const STRUCTURED: u32 = 0x668e_33ef;

const DONE: u16 = 1;

const NONE: u16 = 0;

const OFFSET_DATA: u16 = 1;

const BLOCK_STATUS: u16 = 5;

const ERROR: u16 = 32769;

/// The number of the one context that is offered, `base:allocation`.
pub(crate) const ALLOCATION: u32 = 1;

/// A run of the disk, in bytes.
#[derive(Clone, Copy)]
pub(crate) struct Extent {
    pub(crate) length: u32,
    pub(crate) state: State,
}

#[tactic(auto, unfolding(crate::specs::Replies::simple_reply))]
fn push_simple(out: &mut Vec<u8>, error: u32, cookie: u64) -> Result<(), AllocError>
    ensures { OnOk result (out.new.items ≡ out.old.items ++ simple_reply error cookie) }
{
    out.extend_from_slice(&SIMPLE.to_be_bytes())?;
    out.extend_from_slice(&error.to_be_bytes())?;
    out.extend_from_slice(&cookie.to_be_bytes())?;
    Ok(())
}

#[tactic(auto, unfolding(crate::specs::Replies::chunk_start))]
fn push_start(out: &mut Vec<u8>, kind: u16) -> Result<(), AllocError>
    ensures { OnOk result (out.new.items ≡ out.old.items ++ chunk_start kind) }
{
    out.extend_from_slice(&STRUCTURED.to_be_bytes())?;
    out.extend_from_slice(&DONE.to_be_bytes())?;
    out.extend_from_slice(&kind.to_be_bytes())?;
    Ok(())
}

#[tactic(auto, unfolding(crate::specs::Replies::chunk_head))]
fn push_head(out: &mut Vec<u8>, kind: u16, cookie: u64, length: u32) -> Result<(), AllocError>
    ensures { OnOk result (out.new.items ≡ out.old.items ++ chunk_head kind cookie length) }
{
    push_start(out, kind)?;
    out.extend_from_slice(&cookie.to_be_bytes())?;
    out.extend_from_slice(&length.to_be_bytes())?;
    Ok(())
}

fn push_done(out: &mut Vec<u8>, structured: bool, cookie: u64) -> Result<(), AllocError>
    ensures { OnOk result (out.new.items ≡ out.old.items ++ done_reply structured cookie) }
{
    if structured {
        push_head(out, NONE, cookie, 0)
    } else {
        push_simple(out, 0, cookie)
    }
}

fn push_error(
    out: &mut Vec<u8>,
    structured: bool,
    cookie: u64,
    error: Errno,
) -> Result<(), AllocError>
    ensures { OnOk result (out.new.items ≡ out.old.items ++ error_reply structured cookie error) }
{
    let number = error.number();
    if !structured {
        return push_simple(out, number, cookie);
    }
    push_head(out, ERROR, cookie, 6)?;
    out.extend_from_slice(&number.to_be_bytes())?;
    out.extend_from_slice(&0u16.to_be_bytes())?;
    Ok(())
}

/// Appends the reply to a request without a payload in its reply.
pub(crate) fn push_status(
    out: &mut Vec<u8>,
    structured: bool,
    cookie: u64,
    status: &Result<(), Errno>,
) -> Result<(), AllocError>
    ensures { OnOk result (out.new.items ≡ out.old.items ++ status_reply structured cookie status.now) }
{
    match status {
        Ok(()) => push_done(out, structured, cookie),
        Err(error) => push_error(out, structured, cookie, *error),
    }
}

/// Appends what comes before the bytes of a read.
pub(crate) fn push_read_head(
    out: &mut Vec<u8>,
    structured: bool,
    cookie: u64,
    offset: u64,
    length: u32,
) -> Result<(), AllocError>
    requires { length < 2 ^ 31 }
    ensures { OnOk result (out.new.items ≡ out.old.items ++ read_head structured cookie offset length) }
{
    if !structured {
        return push_simple(out, 0, cookie);
    }
    push_head(out, OFFSET_DATA, cookie, 8 + length)?;
    out.extend_from_slice(&offset.to_be_bytes())?;
    Ok(())
}

/// Appends the reply to BLOCK_STATUS.
pub(crate) fn push_extents(
    out: &mut Vec<u8>,
    cookie: u64,
    extents: &[Extent],
) -> Result<(), AllocError>
    requires { length extents.now < 2 ^ 20 }
    ensures { OnOk result (out.new.items ≡ out.old.items ++ extents_reply cookie extents.now) }
{
    let length = 4 + 8 * extents.len() as u32;
    push_head(out, BLOCK_STATUS, cookie, length)?;
    out.extend_from_slice(&ALLOCATION.to_be_bytes())?;
    push_all(out, extents)
}

fn push_all(out: &mut Vec<u8>, extents: &[Extent]) -> Result<(), AllocError>
    ensures { OnOk result (out.new.items ≡ out.old.items ++ flat_map extent_bytes extents.now) }
{
    for extent in extents {
        push_extent(out, extent)?;
    }
    Ok(())
}

#[tactic(auto, unfolding(crate::specs::Replies::extent_bytes))]
fn push_extent(out: &mut Vec<u8>, extent: &Extent) -> Result<(), AllocError>
    ensures { OnOk result (out.new.items ≡ out.old.items ++ extent_bytes extent.now) }
{
    out.extend_from_slice(&extent.length.to_be_bytes())?;
    out.extend_from_slice(&extent.state.number().to_be_bytes())?;
    Ok(())
}
