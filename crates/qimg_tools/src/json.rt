//! Text in JSON.

ghost use Rattle.std.specs.Prelude.{◌≡◌, ◌<◌, OnOk, false};
ghost use Rattle.std.specs.Fmt.{digit_glyph};
ghost use Rattle.std.specs.Io.KnownBytes.{Appends};
ghost use Rattle.qimg_tools.specs.Json.{escaped, escaped_text, json_text};

use std::io;
use std::io::Write;

/// Prints a JSON string. Refused as the output refuses.
pub fn print_text<W: Write>(output: &mut W, text: &str) -> io::Result<()>
    ensures { OnOk result (Appends (W.contents output.old) (W.contents output.new) (json_text text.now)) }
{
    output.write_all(b"\"")?;
    print_escaped(output, text.as_bytes())?;
    output.write_all(b"\"")
}

fn print_escaped<W: Write>(output: &mut W, text: &[u8]) -> io::Result<()>
    ensures { OnOk result (Appends (W.contents output.old) (W.contents output.new) (escaped_text text.now)) }
{
    for byte in text {
        print_byte(output, *byte)?;
    }
    Ok(())
}

// Prints a byte of a JSON string. Control characters, quotation marks and backslashes are escaped.
fn print_byte<W: Write>(output: &mut W, byte: u8) -> io::Result<()>
    ensures { OnOk result (Appends (W.contents output.old) (W.contents output.new) (escaped byte)) }
{
    match byte {
        b'"' => output.write_all(b"\\\""),
        b'\\' => output.write_all(b"\\\\"),
        0..=31 => output.write_all(&[
            b'\\',
            b'u',
            b'0',
            b'0',
            b'0' + byte / 16,
            hex_digit(byte % 16),
        ]),
        _ => output.write_all(&[byte]),
    }
}

fn hex_digit(value: u8) -> u8
    requires { value < 16 }
    ensures { result ≡ digit_glyph false value }
{
    if value < 10 {
        b'0' + value
    } else {
        b'a' + (value - 10)
    }
}
