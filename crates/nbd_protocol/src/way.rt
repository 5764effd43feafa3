//! How requests are answered.
ghost use Rattle.std.specs.Prelude.{◌≡◌};
ghost use Rattle.nbd_protocol.specs.Conversations.{way_of};

use crate::request::Command;

/// How a request is answered.
#[derive(Clone, Copy)]
pub(crate) enum Way {
    /// With bytes of the disk.
    Bytes,
    /// With runs of the disk and their states.
    Runs,
    /// With success or an error, after its payload was read.
    Payload,
    /// With success or an error.
    Status,
}

/// How a command is answered. BLOCK_STATUS is answered with runs only if the client negotiated the context.
pub(crate) fn way_of(allocation: bool, command: Command) -> Way
    ensures { result ≡ way_of allocation command }
{
    match command {
        Command::Read => Way::Bytes,
        Command::Write => Way::Payload,
        Command::BlockStatus if allocation => Way::Runs,
        _ => Way::Status,
    }
}
