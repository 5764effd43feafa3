//! The words of the command line.
ghost use Rattle.std.specs.Prelude.{◌≡◌, map, string_bytes};
ghost use Rattle.std.specs.Option.{option_map};
ghost use Rattle.qimg_nbd.specs.Words.{asked, asked_by_words};

/// The line that is printed if the words can't be read.
pub const USAGE: &str = "usage: qimg-nbd [-r] FILE";

/// A file, and whether it is only read.
#[derive(Clone, Copy)]
pub struct Invocation<'a> {
    pub file: &'a str,
    pub read_only: bool,
}

/// Reads the words after the program's name; None if they can't be read.
pub fn words(words: &[String]) -> Option<Invocation<'_>>
    ensures { option_map asked result ≡ asked_by_words (map string_bytes words.now) }
{
    if let [file] = words {
        return Some(Invocation {
            file: file.as_str(),
            read_only: false,
        });
    }
    let [option, file] = words else {
        return None;
    };
    if option.as_str() != "-r" {
        return None;
    }
    Some(Invocation {
        file: file.as_str(),
        read_only: true,
    })
}
