//! Printing the report of an image.
ghost use Rattle.std.specs.Prelude.{◌≡◌, ◌∷◌, ◌++◌, [], IfOk, OnOk, length};
ghost use Rattle.std.specs.Fmt.{decimal};
ghost use Rattle.std.specs.Io.KnownBytes.{Appends};
ghost use Rattle.program_parts.specs.Reports.{kind_word, breach_line, leak_line, consistent_line, verdict_line};
ghost use Rattle.program_parts.specs.Reports.{text_of_lines, text_of_report};

use itoa::Buffer;
use qcow2_check::{Breach, Kind, Leak, Leaks, Report};
use std::io;
use std::io::Write;

/// Prints the lines of a report: each breach, each leaked cluster, and a summary. Refused as the output refuses.
pub fn print_report<W: Write>(output: &mut W, report: &Report) -> io::Result<()>
    ensures { OnOk result (Appends (W.contents output.old) (W.contents output.new)
        (text_of_report report.now.breaches.items report.now.leaks)) }
{
    print_breaches(output, &report.breaches)?;
    let leaks = print_leaks(output, &report.leaks)?;
    print_verdict(output, report.breaches.len(), leaks)
}

// The last line.
fn print_verdict<W: Write>(output: &mut W, breaches: usize, leaks: usize) -> io::Result<()>
    ensures { OnOk result (Appends (W.contents output.old) (W.contents output.new) (verdict_line breaches leaks ++ 10 ∷ [])) }
{
    if breaches == 0 {
        print_consistent(output, leaks)
    } else {
        writeln!(output, "broken, {breaches} breaches")
    }
}

fn print_consistent<W: Write>(output: &mut W, leaks: usize) -> io::Result<()>
    ensures { OnOk result (Appends (W.contents output.old) (W.contents output.new) (consistent_line leaks ++ 10 ∷ [])) }
{
    writeln!(output, "consistent, {leaks} leaked")
}

/// Prints a line for each breach. Refused as the output refuses.
pub fn print_breaches<W: Write>(output: &mut W, breaches: &[Breach]) -> io::Result<()>
    ensures { OnOk result (Appends (W.contents output.old) (W.contents output.new) (text_of_lines breach_line breaches.now)) }
{
    for breach in breaches {
        print_breach(output, breach)?;
    }
    Ok(())
}

// Prints a line for each leak, and returns their number.
fn print_leaks<W: Write>(output: &mut W, leaks: &Leaks) -> io::Result<usize>
    ensures lines { OnOk result (Appends (W.contents output.old) (W.contents output.new) (text_of_lines leak_line leaks.now)) }
    ensures count { IfOk result (λ n. n ≡ length leaks.now) }
{
    let mut count = 0;
    for leak in leaks.iter() {
        print_leak(output, &leak)?;
        count += 1;
    }
    Ok(count)
}

// Prints the line of a leak, without a formatter, since there may be many.
fn print_leak<W: Write>(output: &mut W, leak: &Leak) -> io::Result<()>
    ensures { OnOk result (Appends (W.contents output.old) (W.contents output.new) (leak_line leak.now ++ 10 ∷ [])) }
{
    output.write_all(b"leak ")?;
    print_number(output, leak.cluster)?;
    output.write_all(b" ")?;
    print_number(output, leak.count)?;
    output.write_all(b" ")?;
    print_number(output, leak.named)?;
    output.write_all(b"\n")
}

fn print_number<W: Write>(output: &mut W, number: u64) -> io::Result<()>
    ensures { OnOk result (Appends (W.contents output.old) (W.contents output.new) (decimal number)) }
{
    let mut digits = Buffer::new();
    output.write_all(digits.format(number).as_bytes())
}

fn print_breach<W: Write>(output: &mut W, breach: &Breach) -> io::Result<()>
    ensures { OnOk result (Appends (W.contents output.old) (W.contents output.new) (breach_line breach.now ++ 10 ∷ [])) }
{
    match *breach {
        Breach::Snapshots { count } => writeln!(output, "snapshots {count}"),
        Breach::External => writeln!(output, "external"),
        Breach::Unaligned { kind, offset } => {
            let kind = kind_word(kind);
            writeln!(output, "unaligned {kind} {offset}")
        }
        Breach::Under {
            cluster,
            count,
            named,
        } => writeln!(output, "under {cluster} {count} {named}"),
        Breach::Shared { cluster, named } => writeln!(output, "shared {cluster} {named}"),
        Breach::Copied {
            cluster,
            count,
            named,
        } => writeln!(output, "copied {cluster} {count} {named}"),
    }
}

fn kind_word(kind: Kind) -> &'static str
    ensures { result.now ≡ kind_word kind }
{
    match kind {
        Kind::L1 => "l1",
        Kind::Reftable => "reftable",
        Kind::L2 => "l2",
        Kind::Refblock => "refblock",
        Kind::Data => "data",
    }
}
