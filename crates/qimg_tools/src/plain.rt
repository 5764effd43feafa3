//! Text for people, without characters that a terminal would obey.

use std::io;
use std::io::Write;

/// Prints a text. Control characters are printed as numbers, such as `\x1b`. Refused as the output refuses.
pub fn print_plain<W: Write>(output: &mut W, text: &str) -> io::Result<()> {
    for letter in text.chars() {
        if letter.is_control() {
            let number = u32::from(letter);
            write!(output, "\\x{number:02x}")?;
        } else {
            write!(output, "{letter}")?;
        }
    }
    Ok(())
}
