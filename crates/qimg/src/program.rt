ghost use Rattle.std.specs.Prelude.{◌≡◌, ◌≤◌, ◌∷◌, ◌++◌, ◌&&◌, [], Bool, true, false, codes, length, is_ok, IfErr, IfOk, IfSome, IsOk, OnOk, Ok, Err};
ghost use Rattle.std.specs.Io.KnownBytes.{Appends, Keeps};
ghost use Rattle.image_access.specs.Moments.{ContentsStay};
ghost use Rattle.qcow2_image.specs.Opened.{NeedsAnother};
ghost use Rattle.qimg.specs.Creating.{CreatesOrLeaves, HasCreated};
ghost use Rattle.qimg.specs.Printed.{are_accepted, end_text, flush_text, refusal_text, replies_text, run_status};
ghost use Rattle.qimg.specs.Program.{EndsOrLeaves, HasRunText, PrintsRun};
ghost use Rattle.qimg.specs.Reading.{is_cut};

use crate::messages::{report_bad_line, report_refused};
use crate::printing::{any_refused, print_refusal, print_replies};
use crate::reading::{Script, read_script};
use crate::words::{Invocation, USAGE};
use image_access::{Storage, WrappedFormat};
use qcow2_image::{ImageError, Qcow2, Qcow2CreateBuilder};
use qcow2_session::{Command, Reply, open_and_run};
use std::alloc::Global;
use std::io;
use std::io::{BufRead, Write};

/// The exit status of a run in which nothing was refused: 0.
pub const DONE: u8 = 0;

/// The exit status if a printed line is a refusal, or the output failed: 1.
pub const REFUSED: u8 = 1;

/// The exit status if the words, or a line of the input, can't be read: 2.
pub const UNREADABLE: u8 = 2;

/// Creates an image on the storage, as the words say, and returns the exit status and the storage. Refused as
/// `Qcow2CreateBuilder::create` is: 5 (invalid option), 13 (limit), 14 (memory), 15 (storage).
pub fn create<S: Storage, W: Write>(
    alloc: Global,
    storage: S,
    invocation: &Invocation<'_>,
    output: &mut W,
) -> (u8, S)
    ensures bound { result.0 ≤ 2 }
    ensures created { result.0 ≡ 0 → Appends (W.contents output.old) (W.contents output.new) (codes "created" ++ 10 ∷ []) }
    ensures image { result.0 ≡ 0 → HasCreated S.view storage result.1 invocation.now }
    ensures left { CreatesOrLeaves S.view storage result.1 invocation.now }
{
    let Invocation::Create {
        file: _,
        size,
        cluster,
        width,
        mode,
    } = *invocation
    else {
        return (print_usage(output), storage);
    };
    let (storage, made) = Qcow2CreateBuilder::new(storage)
        .size(size)
        .preallocate(mode)
        .cluster_size(cluster)
        .refcount_width(width)
        .create(alloc);
    let status = match made {
        Ok(()) => end(writeln!(output, "created"), output),
        Err(e) => refuse(output, &e),
    };
    (status, storage)
}

/// Reads commands from the input, runs them on the image on the storage, prints the replies, and returns the exit status, whether the
/// output took everything, and the storage. Messages name lines that were refused or can't be read. An image that needs another
/// file is refused 12 (dependency), and stays unchanged; otherwise refused as `open_and_run` is. `F` is the type of a backing disk; none
/// is given.
pub fn script<S: Storage, F: WrappedFormat<S>, R: BufRead, W: Write, M: Write>(
    alloc: Global,
    storage: S,
    input: &mut R,
    output: &mut W,
    messages: &mut M,
) -> (u8, io::Result<()>, S)
    ensures bound { result.0 ≤ 2 }
    ensures done { result.0 ≡ 0 → HasRunText S.view F.backing storage result.2 (R.remaining input.old)
        (W.contents output.old) (W.contents output.new) }
    ensures ends { EndsOrLeaves S.view F.backing storage result.2 (R.remaining input.old) result.0 result.1
        (W.contents output.old) (W.contents output.new) }
    ensures another { (S.view storage).is_honest → NeedsAnother (S.view storage).contents → ContentsStay (S.view storage) (S.view result.2) }
{
    let Ok(script) = read_script(alloc, input) else {
        let printed = print_refusal(output, &ImageError::Memory);
        return (REFUSED, flush_output(output, printed), storage);
    };
    let (printed, storage) = run_commands::<S, F, W, M>(
        alloc,
        storage,
        &script.commands,
        output,
        messages,
    );
    let printed = print_end(output, messages, &script, printed);
    let printed = flush_output(output, printed);
    let (status, written) = run_status(script.is_cut(), printed);
    (status, written, storage)
}

/// Prints the usage line, and returns the exit status.
pub fn print_usage<W: Write>(output: &mut W) -> u8
    ensures { result ≡ 2 }
{
    let _ = writeln!(output, "{USAGE}");
    let _ = output.flush();
    UNREADABLE
}

/// Prints the line of a refusal, and returns the exit status.
pub fn refuse<W: Write>(output: &mut W, e: &ImageError) -> u8
    ensures { result ≡ 1 }
{
    let _ = print_refusal(output, e);
    let _ = output.flush();
    REFUSED
}

/// Flushes the output after its last line, and returns the exit status.
pub fn end<W: Write>(printed: io::Result<()>, output: &mut W) -> u8
    ensures bound { result ≤ 1 }
    ensures printed { result ≡ 0 → IsOk printed }
    ensures same { Keeps (W.contents output.old) (W.contents output.new) }
{
    match flush_output(output, printed) {
        Ok(()) => DONE,
        Err(_) => REFUSED,
    }
}

// Flushes the output, even if printing failed.
fn flush_output<W: Write, T: Drop>(output: &mut W, printed: io::Result<T>) -> io::Result<T>
    ensures printed { IfOk result (λ value. printed ≡ Ok value) }
    ensures same { Keeps (W.contents output.old) (W.contents output.new) }
{
    let flushed = output.flush();
    let value = printed?;
    flushed?;
    Ok(value)
}

// The exit status, by whether anything was refused, and whether the lines could be printed.
fn run_status(cut: bool, printed: io::Result<bool>) -> (u8, io::Result<()>)
    ensures status { IfOk printed (λ accepted. (result.1 ≡ Ok tt) × (result.0 ≡ run_status cut accepted true)) }
    ensures unwritten { IfErr printed (λ e. (result.1 ≡ Err e) × ((accepted : Bool) → result.0 ≡ run_status cut accepted false)) }
{
    match (cut, printed) {
        (true, Ok(_)) => (UNREADABLE, Ok(())),
        (true, Err(e)) => (UNREADABLE, Err(e)),
        (false, Ok(true)) => (DONE, Ok(())),
        (false, Ok(false)) => (REFUSED, Ok(())),
        (false, Err(e)) => (REFUSED, Err(e)),
    }
}

// Runs commands, prints their replies, and returns the storage. Returns whether nothing was refused; an error if a line could not be
// printed.
fn run_commands<S: Storage, F: WrappedFormat<S>, W: Write, M: Write>(
    alloc: Global,
    storage: S,
    commands: &[Command],
    output: &mut W,
    messages: &mut M,
) -> (io::Result<bool>, S)
    ensures ends { PrintsRun S.view F.backing storage result.1 commands.now result.0 (W.contents output.old) (W.contents output.new) }
    ensures another { (S.view storage).is_honest → NeedsAnother (S.view storage).contents → ContentsStay (S.view storage) (S.view result.1) }
{
    match open_and_run::<S, F>(alloc, storage, None, 1, commands) {
        Ok((mut image, replies)) => {
            report_refused(messages, &replies);
            let answered = print_answers(output, commands.len(), &replies);
            let flushed = image.flush();
            let printed = print_flush(output, answered, &flushed);
            (printed, image.into_storage())
        }
        Err((storage, e)) => (print_refused(output, &e), storage),
    }
}

// Prints the replies to `count` commands. There is one for each, or none at all if there was no memory for them.
fn print_answers<W: Write>(output: &mut W, count: usize, replies: &[Reply]) -> io::Result<bool>
    ensures accepted { IfOk result (λ accepted. accepted ≡ are_accepted count replies.now) }
    ensures text { OnOk result (IfSome (replies_text count replies.now) (Appends (W.contents output.old) (W.contents output.new))) }
{
    if replies.len() != count {
        return print_refused(output, &ImageError::Memory);
    }
    print_replies(output, replies)?;
    Ok(!any_refused(replies))
}

// Prints a refused flush, after the replies. Returns whether nothing was refused.
fn print_flush<W: Write>(
    output: &mut W,
    answered: io::Result<bool>,
    flushed: &Result<(), ImageError>,
) -> io::Result<bool>
    ensures answered { OnOk result (IsOk answered) }
    ensures accepted { IfOk result (λ accepted. IfOk answered (λ before. accepted ≡ (is_ok flushed.now && before))) }
    ensures text { OnOk result (Appends (W.contents output.old) (W.contents output.new) (flush_text flushed.now)) }
{
    let accepted = answered?;
    match flushed {
        Ok(()) => Ok(accepted),
        Err(e) => print_refused(output, e),
    }
}

// Prints the line of a refusal, and returns that something was refused.
fn print_refused<W: Write>(output: &mut W, e: &ImageError) -> io::Result<bool>
    ensures accepted { IfOk result (λ accepted. accepted ≡ false) }
    ensures text { OnOk result (Appends (W.contents output.old) (W.contents output.new) (refusal_text e.now)) }
{
    print_refusal(output, e)?;
    Ok(false)
}

// Reports the unreadable line, if there is one.
fn print_end<W: Write, M: Write>(
    output: &mut W,
    messages: &mut M,
    script: &Script,
    printed: io::Result<bool>,
) -> io::Result<bool>
    ensures printed { IfOk result (λ accepted. printed ≡ Ok accepted) }
    ensures text { OnOk result (Appends (W.contents output.old) (W.contents output.new)
        (end_text (is_cut script.now.end) (length script.now.commands.items))) }
{
    if !script.is_cut() {
        return printed;
    }
    let number = script.commands.len() + 1;
    report_bad_line(messages, number);
    let accepted = printed?;
    writeln!(output, "bad line {number}")?;
    Ok(accepted)
}
