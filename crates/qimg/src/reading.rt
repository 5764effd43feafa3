ghost use Rattle.std.specs.Prelude.{◌≡◌, List, ℕ, [], map, Some, IfOk, IfSome, IsErrOf};
ghost use Rattle.std.specs.Option.{MatchOption};
ghost use Rattle.std.specs.Io.BufRead.{strip_last};
ghost use Rattle.qimg.specs.Lines.{order_of_command};
ghost use Rattle.qimg.specs.Reading.{AsksNothing, BeginsWith, IsScriptOf, is_cut};
ghost use Rattle.qimg.specs.declared.lines.LineError.TheVariants.{Unreadable};

use crate::lines::{LineError, parse_line};
use qcow2_session::Command;
use std::alloc::{AllocError, Global};
use std::io;
use std::io::BufRead;

/// Where the commands of an input end.
#[derive(Clone, Copy, PartialEq, Eq)]
pub enum ScriptEnd {
    /// At the end of the input.
    Whole,
    /// Before a line that is no command, or isn't UTF-8.
    BadLine,
    /// Before a line in which a read failed.
    FailedRead,
}

/// The commands of an input.
#[derive(Drop)]
pub struct Script {
    /// The commands, in their order.
    pub commands: Vec<Command>,
    /// Where the commands end.
    pub end: ScriptEnd,
}

impl Script {
    /// Whether an unreadable line ended the input.
    pub fn is_cut(&self) -> bool
        ensures { result ≡ is_cut self.now.end }
    {
        self.end != ScriptEnd::Whole
    }
}

/// Reads lines up to the end of the input, or up to the first one that can't be read: it is no command, isn't UTF-8,
/// or a read fails in it. Refused if memory runs out.
#[tactic(auto, using(crate::proofs::Scripts::script_failed))]
pub fn read_script<R: BufRead>(alloc: Global, input: &mut R) -> Result<Script, AllocError>
    ensures { IfSome (R.remaining input.old)
        (λ text. IfOk result (λ script. IsScriptOf text (map order_of_command script.commands.items) script.end)) }
{
    let mut commands = Vec::new(alloc);
    for _ in 0..u64::MAX {
        match next_command(alloc, input) {
            Ok(Some(command)) => commands.push(command)?,
            Ok(None) => {
                return Ok(Script {
                    commands,
                    end: ScriptEnd::Whole,
                });
            }
            Err(LineError::Unreadable) => {
                return Ok(Script {
                    commands,
                    end: ScriptEnd::BadLine,
                });
            }
            Err(LineError::FailedRead) => {
                return Ok(Script {
                    commands,
                    end: ScriptEnd::FailedRead,
                });
            }
            Err(LineError::Memory) => return Err(AllocError),
        }
    }
    Err(AllocError)
}

// The command of the next line; None at the end of the input.
#[tactic(auto, using(crate::proofs::Scripts::asks_nothing))]
fn next_command<R: BufRead>(alloc: Global, input: &mut R) -> Result<Option<Command>, LineError>
    ensures asked { IfSome (R.remaining input.old)
        (λ text. IfOk result (λ next. MatchOption next (text ≡ [])
        (λ command. (rest : List ℕ) × (R.remaining input.new ≡ Some rest)
        × BeginsWith text (order_of_command command) rest))) }
    ensures unreadable { IsErrOf result Unreadable → IfSome (R.remaining input.old) AsksNothing }
{
    let mut line = Vec::new(alloc);
    match input.read_until(b'\n', &mut line) {
        Ok(0) => return Ok(None),
        Ok(_) => {}
        Err(e) if e.kind() == io::ErrorKind::OutOfMemory => return Err(LineError::Memory),
        Err(_) => return Err(LineError::FailedRead),
    }
    let Ok(text) = std::str::from_utf8(without_end(&line)) else {
        return Err(LineError::Unreadable);
    };
    let command = parse_line(alloc, text)?;
    Ok(Some(command))
}

// A line without its line feed, if it has one.
fn without_end(line: &[u8]) -> &[u8]
    ensures { result.now ≡ strip_last 10 line.now }
{
    match line {
        [text @ .., b'\n'] => text,
        _ => line,
    }
}
