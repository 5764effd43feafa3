ghost use Rattle.std.specs.Prelude.{◌≡◌, ◌==◌, List, ℕ, map, IfOk, IsErrOf, None, Some};
ghost use Rattle.std.specs.List.{list_all, slice_split};
ghost use Rattle.qimg.specs.Lines.{length_within, is_lower_hex_digit, bytes_of, byte_of, order_of_command, order_alone, read_of, special_of, map_of, write_of, fill_of, slot_within, overwrite_of, mode_of, grow_of, shrink_of, prepare_of, put_of, slot_alone, range_alone, clear_of, zeroes, discards_to_zero, discards_to_any, discards_to_backing, order_of_words, order_of_line};
ghost use Rattle.program_parts.specs.Numbers.{number_of_word};
ghost use Rattle.qimg.specs.declared.lines.LineError.TheVariants.{Unreadable, Memory};

use hex::FromHexError;
use image_access::PreallocateMode;
use program_parts::number;
use qcow2_session::Command;
use std::alloc::{AllocError, Global};

/// The greatest length of a `read`, a `fill` or a `special`.
const LONGEST: u64 = 1_048_576;

/// Why a line is no command.
#[derive(Clone, Copy)]
pub enum LineError {
    /// The line is no command.
    Unreadable,
    /// A read failed in it.
    FailedRead,
    /// There was no memory for its command.
    Memory,
}

impl From<AllocError> for LineError {
    ghost from_gives = { λ _ e. e ≡ Memory };

    fn from(_: AllocError) -> LineError {
        LineError::Memory
    }
}

/// The command of a line, without its line feed. Refused `Unreadable` if it isn't a line of a command, and `Memory`.
pub fn parse_line(alloc: Global, line: &str) -> Result<Command, LineError>
    ensures ok { IfOk result (λ command. order_of_line line.now ≡ Some (order_of_command command)) }
    ensures unreadable { IsErrOf result Unreadable → order_of_line line.now ≡ None }
{
    let words = split_words(alloc, line)?;
    parse_words(alloc, &words)
}

fn split_words(alloc: Global, line: &str) -> Result<Vec<&str>, AllocError>
    ensures { IfOk result (λ words. map (λ word. word.now) words.items ≡ slice_split (λ byte. byte == 32) line.now) }
{
    line.split(' ').collect(alloc)
}

fn parse_words(alloc: Global, words: &[&str]) -> Result<Command, LineError>
    ensures ok { IfOk result (λ command. order_of_words (map (λ word. word.now) words.now) ≡ Some (order_of_command command)) }
    ensures unreadable { IsErrOf result Unreadable → order_of_words (map (λ word. word.now) words.now) ≡ None }
{
    let Some((name, operands)) = words.split_first() else {
        return Err(LineError::Unreadable);
    };
    match *name {
        "read" => read_command(operands),
        "write" => write_command(alloc, operands),
        "fill" => fill_command(operands),
        "map" => map_command(operands),
        "prepare" => prepare_command(operands),
        "put" => put_command(alloc, operands),
        "commit" => Ok(Command::CommitDataMapping {
            slot: slot_of_operands(operands)?,
        }),
        "drop" => Ok(Command::DiscardDataMapping {
            slot: slot_of_operands(operands)?,
        }),
        "zero" => zero_command(operands),
        "dzero" => discard_to_zero_command(operands),
        "dany" => discard_to_any_command(operands),
        "dback" => discard_to_backing_command(operands),
        "special" => special_command(operands),
        "grow" => grow_command(operands),
        "shrink" => shrink_command(operands),
        "flush" => alone(Command::Flush, operands),
        "size" => alone(Command::Size, operands),
        "sync" => alone(Command::Sync, operands),
        "invalidate" => alone(Command::InvalidateCache, operands),
        "leaks" => alone(Command::Leaked, operands),
        _ => Err(LineError::Unreadable),
    }
}

// A command without operands.
fn alone(command: Command, operands: &[&str]) -> Result<Command, LineError>
    ensures ok { IfOk result (λ it. order_alone (order_of_command command) (map (λ word. word.now) operands.now) ≡ Some (order_of_command it)) }
    ensures unreadable { IsErrOf result Unreadable → order_alone (order_of_command command) (map (λ word. word.now) operands.now) ≡ None }
{
    if !operands.is_empty() {
        return Err(LineError::Unreadable);
    }
    Ok(command)
}

fn read_command(operands: &[&str]) -> Result<Command, LineError>
    ensures ok { IfOk result (λ command. read_of (map (λ word. word.now) operands.now) ≡ Some (order_of_command command)) }
    ensures unreadable { IsErrOf result Unreadable → read_of (map (λ word. word.now) operands.now) ≡ None }
{
    let [offset, length] = operands else {
        return Err(LineError::Unreadable);
    };
    let (Some(offset), Some(length)) = (number(offset), short_length(length)) else {
        return Err(LineError::Unreadable);
    };
    Ok(Command::Read { offset, length })
}

fn special_command(operands: &[&str]) -> Result<Command, LineError>
    ensures ok { IfOk result (λ command. special_of (map (λ word. word.now) operands.now) ≡ Some (order_of_command command)) }
    ensures unreadable { IsErrOf result Unreadable → special_of (map (λ word. word.now) operands.now) ≡ None }
{
    let [offset, length] = operands else {
        return Err(LineError::Unreadable);
    };
    let (Some(offset), Some(length)) = (number(offset), short_length(length)) else {
        return Err(LineError::Unreadable);
    };
    Ok(Command::ReadvSpecial { offset, length })
}

fn map_command(operands: &[&str]) -> Result<Command, LineError>
    ensures ok { IfOk result (λ command. map_of (map (λ word. word.now) operands.now) ≡ Some (order_of_command command)) }
    ensures unreadable { IsErrOf result Unreadable → map_of (map (λ word. word.now) operands.now) ≡ None }
{
    let [offset, length] = operands else {
        return Err(LineError::Unreadable);
    };
    let (Some(offset), Some(max)) = (number(offset), number(length)) else {
        return Err(LineError::Unreadable);
    };
    Ok(Command::GetMapping {
        slot: 0,
        offset,
        max,
    })
}

fn write_command(alloc: Global, operands: &[&str]) -> Result<Command, LineError>
    ensures ok { IfOk result (λ command. write_of (map (λ word. word.now) operands.now) ≡ Some (order_of_command command)) }
    ensures unreadable { IsErrOf result Unreadable → write_of (map (λ word. word.now) operands.now) ≡ None }
{
    let [offset, pairs] = operands else {
        return Err(LineError::Unreadable);
    };
    let Some(offset) = number(offset) else {
        return Err(LineError::Unreadable);
    };
    let bytes = pairs_of(alloc, pairs)?;
    Ok(Command::Write { offset, bytes })
}

fn fill_command(operands: &[&str]) -> Result<Command, LineError>
    ensures ok { IfOk result (λ command. fill_of (map (λ word. word.now) operands.now) ≡ Some (order_of_command command)) }
    ensures unreadable { IsErrOf result Unreadable → fill_of (map (λ word. word.now) operands.now) ≡ None }
{
    let [offset, length, pair] = operands else {
        return Err(LineError::Unreadable);
    };
    let (Some(offset), Some(length), Some(byte)) = (
        number(offset),
        short_length(length),
        byte_of_pair(pair),
    ) else {
        return Err(LineError::Unreadable);
    };
    Ok(Command::Fill {
        offset,
        length,
        byte,
    })
}

fn prepare_command(operands: &[&str]) -> Result<Command, LineError>
    ensures ok { IfOk result (λ command. prepare_of (map (λ word. word.now) operands.now) ≡ Some (order_of_command command)) }
    ensures unreadable { IsErrOf result Unreadable → prepare_of (map (λ word. word.now) operands.now) ≡ None }
{
    let [slot, offset, length, how] = operands else {
        return Err(LineError::Unreadable);
    };
    let (Some(slot), Some(offset), Some(length), Some(overwrite)) = (
        slot_of(slot),
        number(offset),
        number(length),
        overwrite(how),
    ) else {
        return Err(LineError::Unreadable);
    };
    Ok(Command::PrepareDataMapping {
        slot,
        offset,
        length,
        overwrite,
    })
}

fn put_command(alloc: Global, operands: &[&str]) -> Result<Command, LineError>
    ensures ok { IfOk result (λ command. put_of (map (λ word. word.now) operands.now) ≡ Some (order_of_command command)) }
    ensures unreadable { IsErrOf result Unreadable → put_of (map (λ word. word.now) operands.now) ≡ None }
{
    let [slot, at, pairs] = operands else {
        return Err(LineError::Unreadable);
    };
    let (Some(slot), Some(at)) = (slot_of(slot), number(at)) else {
        return Err(LineError::Unreadable);
    };
    let bytes = pairs_of(alloc, pairs)?;
    Ok(Command::WriteMapped { slot, at, bytes })
}

fn zero_command(operands: &[&str]) -> Result<Command, LineError>
    ensures ok { IfOk result (λ command. clear_of zeroes (range_alone (map (λ word. word.now) operands.now)) ≡ Some (order_of_command command)) }
    ensures unreadable { IsErrOf result Unreadable → clear_of zeroes (range_alone (map (λ word. word.now) operands.now)) ≡ None }
{
    let (offset, length) = range_of_operands(operands)?;
    Ok(Command::EnsureZeroMapping { offset, length })
}

fn discard_to_zero_command(operands: &[&str]) -> Result<Command, LineError>
    ensures ok { IfOk result (λ command. clear_of discards_to_zero
        (range_alone (map (λ word. word.now) operands.now)) ≡ Some (order_of_command command)) }
    ensures unreadable { IsErrOf result Unreadable → clear_of discards_to_zero (range_alone (map (λ word. word.now) operands.now)) ≡ None }
{
    let (offset, length) = range_of_operands(operands)?;
    Ok(Command::DiscardToZero { offset, length })
}

fn discard_to_any_command(operands: &[&str]) -> Result<Command, LineError>
    ensures ok { IfOk result (λ command. clear_of discards_to_any
        (range_alone (map (λ word. word.now) operands.now)) ≡ Some (order_of_command command)) }
    ensures unreadable { IsErrOf result Unreadable → clear_of discards_to_any (range_alone (map (λ word. word.now) operands.now)) ≡ None }
{
    let (offset, length) = range_of_operands(operands)?;
    Ok(Command::DiscardToAny { offset, length })
}

fn discard_to_backing_command(operands: &[&str]) -> Result<Command, LineError>
    ensures ok { IfOk result (λ command. clear_of discards_to_backing
        (range_alone (map (λ word. word.now) operands.now)) ≡ Some (order_of_command command)) }
    ensures unreadable { IsErrOf result Unreadable → clear_of discards_to_backing (range_alone (map (λ word. word.now) operands.now)) ≡ None }
{
    let (offset, length) = range_of_operands(operands)?;
    Ok(Command::DiscardToBacking { offset, length })
}

fn grow_command(operands: &[&str]) -> Result<Command, LineError>
    ensures ok { IfOk result (λ command. grow_of (map (λ word. word.now) operands.now) ≡ Some (order_of_command command)) }
    ensures unreadable { IsErrOf result Unreadable → grow_of (map (λ word. word.now) operands.now) ≡ None }
{
    let [size, how] = operands else {
        return Err(LineError::Unreadable);
    };
    let (Some(size), Some(mode)) = (number(size), preallocation(how)) else {
        return Err(LineError::Unreadable);
    };
    Ok(Command::ResizeGrow { size, mode })
}

fn shrink_command(operands: &[&str]) -> Result<Command, LineError>
    ensures ok { IfOk result (λ command. shrink_of (map (λ word. word.now) operands.now) ≡ Some (order_of_command command)) }
    ensures unreadable { IsErrOf result Unreadable → shrink_of (map (λ word. word.now) operands.now) ≡ None }
{
    let [size] = operands else {
        return Err(LineError::Unreadable);
    };
    let Some(size) = number(size) else {
        return Err(LineError::Unreadable);
    };
    Ok(Command::ResizeShrink { size })
}

// The preallocation mode of a word.
pub(crate) fn preallocation(word: &str) -> Option<PreallocateMode>
    ensures { result ≡ mode_of word.now }
{
    match word {
        "none" => Some(PreallocateMode::None),
        "zero" => Some(PreallocateMode::Zero),
        "format" => Some(PreallocateMode::FormatAllocate),
        "full" => Some(PreallocateMode::FullAllocate),
        "write" => Some(PreallocateMode::WriteData),
        _ => None,
    }
}

// The offset and the length of a line with no other operands.
fn range_of_operands(operands: &[&str]) -> Result<(u64, u64), LineError>
    ensures ok { IfOk result (λ range. range_alone (map (λ word. word.now) operands.now) ≡ Some range) }
    ensures unreadable { IsErrOf result Unreadable → range_alone (map (λ word. word.now) operands.now) ≡ None }
{
    let [offset, length] = operands else {
        return Err(LineError::Unreadable);
    };
    let (Some(offset), Some(length)) = (number(offset), number(length)) else {
        return Err(LineError::Unreadable);
    };
    Ok((offset, length))
}

// The slot of a line with no other operands.
fn slot_of_operands(operands: &[&str]) -> Result<u8, LineError>
    ensures ok { IfOk result (λ slot. slot_alone (map (λ word. word.now) operands.now) ≡ Some slot) }
    ensures unreadable { IsErrOf result Unreadable → slot_alone (map (λ word. word.now) operands.now) ≡ None }
{
    let [slot] = operands else {
        return Err(LineError::Unreadable);
    };
    slot_of(slot).ok_or(LineError::Unreadable)
}

fn slot_of(word: &str) -> Option<u8>
    ensures { result ≡ slot_within (number_of_word word.now) }
{
    u8::try_from(number(word)?).ok()
}

// Whether a word is `overwrite` or `keep`.
fn overwrite(word: &str) -> Option<bool>
    ensures { result ≡ overwrite_of word.now }
{
    match word {
        "overwrite" => Some(true),
        "keep" => Some(false),
        _ => None,
    }
}

fn short_length(word: &str) -> Option<u64>
    ensures { result ≡ length_within (number_of_word word.now) }
{
    let length = number(word)?;
    if length <= LONGEST {
        Some(length)
    } else {
        None
    }
}

fn is_lower_hex(word: &str) -> bool
    ensures { result ≡ list_all is_lower_hex_digit word.now }
{
    word.bytes()
        .all(|byte| matches!(byte, b'0'..=b'9' | b'a'..=b'f'))
}

// The bytes of at least one pair of lower-case hexadecimal digits.
fn pairs_of(alloc: Global, word: &str) -> Result<Vec<u8>, LineError>
    ensures ok { IfOk result (λ bytes. bytes_of word.now ≡ Some bytes.items) }
    ensures unreadable { IsErrOf result Unreadable → bytes_of word.now ≡ None }
{
    if word.is_empty() || !is_lower_hex(word) {
        return Err(LineError::Unreadable);
    }
    match hex::decode(alloc, word) {
        Ok(bytes) => Ok(bytes),
        Err(FromHexError::OutOfMemory) => Err(LineError::Memory),
        Err(_) => Err(LineError::Unreadable),
    }
}

fn byte_of_pair(word: &str) -> Option<u8>
    ensures { result ≡ byte_of word.now }
{
    if !is_lower_hex(word) {
        return None;
    }
    let mut byte = [0];
    hex::decode_to_slice(word, &mut byte).ok()?;
    Some(byte[0])
}
