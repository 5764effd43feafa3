ghost use Rattle.std.specs.Prelude.{◌≡◌, ◌∷◌, [], map, string_bytes};
ghost use Rattle.std.specs.Option.{option_map};
ghost use Rattle.qimg.specs.Words.{asked, asked_by_words};

use crate::lines::preallocation;
use image_access::PreallocateMode;
use program_parts::number;

/// The line that is printed if the words can't be read.
pub const USAGE: &str =
    "usage: qimg create FILE SIZE CLUSTER WIDTH MODE | run FILE | check FILE | import RAW FILE CLUSTER WIDTH | export FILE RAW";

/// The task of a command line.
#[derive(Clone, Copy)]
pub enum Invocation<'a> {
    /// Create an image.
    Create {
        file: &'a str,
        size: u64,
        cluster: u64,
        width: u64,
        mode: PreallocateMode,
    },
    /// Run the commands of the standard input on an image.
    Run {
        file: &'a str,
    },
    /// Check an image.
    Check {
        file: &'a str,
    },
    /// Make an image from a raw disk.
    Import {
        raw: &'a str,
        file: &'a str,
        cluster: u64,
        width: u64,
    },
    /// Make a raw disk from an image.
    Export {
        file: &'a str,
        raw: &'a str,
    },
}

/// Reads the words after the program's name; None if they can't be read.
pub fn words(words: &[String]) -> Option<Invocation<'_>>
    ensures { option_map asked result ≡ asked_by_words (map string_bytes words.now) }
{
    if let [name, file] = words {
        return words_of_a_file(name.as_str(), file.as_str());
    }
    if let [name, file, raw] = words {
        return words_of_an_export(name.as_str(), file.as_str(), raw.as_str());
    }
    if let [name, raw, file, cluster, width] = words {
        return words_of_an_import(
            name.as_str(),
            raw.as_str(),
            file.as_str(),
            cluster.as_str(),
            width.as_str(),
        );
    }
    let [name, file, size, cluster, width, mode] = words else {
        return None;
    };
    words_of_a_creation(
        name.as_str(),
        file.as_str(),
        size.as_str(),
        cluster.as_str(),
        width.as_str(),
        mode.as_str(),
    )
}

fn words_of_a_file<'a>(name: &str, file: &'a str) -> Option<Invocation<'a>>
    ensures { option_map asked result ≡ asked_by_words (name.now ∷ file.now ∷ []) }
{
    match name {
        "run" => Some(Invocation::Run { file }),
        "check" => Some(Invocation::Check { file }),
        _ => None,
    }
}

fn words_of_an_export<'a>(name: &str, file: &'a str, raw: &'a str) -> Option<Invocation<'a>>
    ensures { option_map asked result ≡ asked_by_words (name.now ∷ file.now ∷ raw.now ∷ []) }
{
    if name != "export" {
        return None;
    }
    Some(Invocation::Export { file, raw })
}

fn words_of_an_import<'a>(
    name: &str,
    raw: &'a str,
    file: &'a str,
    cluster: &str,
    width: &str,
) -> Option<Invocation<'a>>
    ensures { option_map asked result ≡ asked_by_words (name.now ∷ raw.now ∷ file.now ∷ cluster.now ∷ width.now ∷ []) }
{
    if name != "import" {
        return None;
    }
    Some(Invocation::Import {
        raw,
        file,
        cluster: number(cluster)?,
        width: number(width)?,
    })
}

fn words_of_a_creation<'a>(
    name: &str,
    file: &'a str,
    size: &str,
    cluster: &str,
    width: &str,
    mode: &str,
) -> Option<Invocation<'a>>
    ensures { option_map asked result ≡ asked_by_words (name.now ∷ file.now ∷ size.now ∷ cluster.now ∷ width.now ∷ mode.now ∷ []) }
{
    if name != "create" {
        return None;
    }
    Some(Invocation::Create {
        file,
        size: number(size)?,
        cluster: number(cluster)?,
        width: number(width)?,
        mode: preallocation(mode)?,
    })
}
