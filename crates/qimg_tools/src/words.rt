//! The words of the command line.

use crate::sizes::size;
use image_access::PreallocateMode;
use std::alloc::Global;

// The reason against an option that the command doesn't have.
const NO_OPTION: &str = "this command has no such option";

/// What is printed for `--help`.
pub const USAGE: &str = "usage: qimg-tools info [-f qcow2] [--output human|json] FILE
       qimg-tools map [-f qcow2] [--output human|json] FILE
       qimg-tools check [-f qcow2] [--output human|json] FILE
       qimg-tools vet [--max-size SIZE] [--output human|json] FILE
       qimg-tools compare [-q] [-f raw|qcow2] [-F raw|qcow2] FILE OTHER
       qimg-tools convert [-p] [-q] [-f raw|qcow2] [-O raw|qcow2] [-o OPTIONS] [--verify]
                          [--backing FILE].. [-F raw|qcow2] SOURCE TARGET
       qimg-tools create [-q] [-f qcow2] [-o OPTIONS] [-b FILE -F raw|qcow2] FILE [SIZE]
       qimg-tools resize [-q] [-f qcow2] [--shrink] [--preallocation MODE] FILE [+|-]SIZE
       qimg-tools [COMMAND] --help | --version
SIZE is a number of bytes, or of units of 1024 as in 64k, 1.5G and 10T.
OPTIONS are cluster_size=SIZE and refcount_bits=N, and for create preallocation=MODE, with commas between them.
MODE is off, metadata, falloc or full. -b names a backing file, whose size is taken where none is given. Words behind -- are files and sizes. --json is --output json.
vet reports whether a stranger's image may be taken in: its bytes are consistent and name no other file.
convert takes a file that begins as a qcow2 image as one, unless -f raw is given; -O raw is the default.
An image over others is converted with --backing for each file below it, from the top down; -F is the last one's format.
The status is 0, or 1 if something is refused. check also returns 2 for an image that is not consistent,
3 for an image that only has leaked clusters, and 63 for a file that is no qcow2 image. vet returns 2 for
an image that may not be taken in. compare returns 1 for disks that differ, and 2 if it cannot compare them.";

/// Why the words can't be read: one of them, and what is wrong with it.
#[derive(Clone, Copy)]
pub struct BadWord<'a> {
    /// The word; if a word is missing, the one before it.
    pub word: &'a str,
    /// What is wrong with it, as the end of a sentence.
    pub reason: &'static str,
}

/// The task of a command line.
#[derive(Clone, Copy)]
pub enum Command {
    /// Describe an image.
    Info,
    /// Print the mapping of an image's disk.
    Map,
    /// Check an image.
    Check,
    /// Decide whether to accept an untrusted image.
    Vet,
    /// Compare two disks.
    Compare,
    /// Make an image or a raw disk from another one.
    Convert,
    /// Create an image.
    Create,
    /// Resize the disk of an image.
    Resize,
    /// Print the usage.
    Help,
    /// Print the version.
    Version,
}

/// The form of an answer.
#[derive(Clone, Copy)]
pub enum Form {
    /// Lines for people: `human`.
    Text,
    /// As JSON: `json`.
    Json,
}

/// The format of a disk in a file.
#[derive(Clone, Copy)]
pub enum DiskFormat {
    /// A raw disk.
    Raw,
    /// A qcow2 image.
    Qcow2,
}

/// The layout of a new image: cluster size, refcount width and preallocation.
#[derive(Clone, Copy)]
pub struct Layout {
    /// The cluster size in bytes: by default 65,536. Images have powers of two from 512 to 2,097,152.
    pub cluster_size: u64,
    /// The refcount width in bits: by default 16. Images have powers of two from 1 to 64.
    pub refcount_bits: u64,
    /// The preallocation of the disk: by default none.
    pub preallocate: PreallocateMode,
}

/// The settings in the words besides the command.
#[derive(Clone, Copy)]
pub struct Settings<'a> {
    /// The form of the answer: text by default.
    pub form: Form,
    /// The format of the source, or of the first disk; None if it isn't given.
    pub source: Option<DiskFormat>,
    /// The format of the second disk that is compared, or of the last backing file; None if it isn't given.
    pub other: Option<DiskFormat>,
    /// The backing file of a new image, if it has one.
    pub below: Option<&'a str>,
    /// The format of the target: raw by default.
    pub target: DiskFormat,
    /// The layout of a new image.
    pub layout: Layout,
    /// Whether the words give a layout.
    pub has_layout: bool,
    /// How a larger disk is allocated: by default not at all.
    pub preallocate: PreallocateMode,
    /// The greatest size of the disk of an accepted image: unbounded by default.
    pub max_size: u64,
    /// The options without a value.
    pub flags: Flags,
    /// The files, or the file and the size, in their order; at most two.
    pub operands: (Option<&'a str>, Option<&'a str>),
}

/// What the words after the program's name ask for.
#[derive(Drop)]
pub struct Words<'a> {
    /// The task.
    pub command: Command,
    /// The settings in the other words.
    pub settings: Settings<'a>,
    /// The files below an image that is converted, from the top down.
    pub layers: Vec<&'a str>,
}

/// Options that have no value.
#[derive(Clone, Copy)]
pub struct Flags {
    /// `-p`: prints the progress of a conversion.
    pub shows_progress: bool,
    /// `-q`: prints nothing that the status says.
    pub is_quiet: bool,
    /// `--verify`: compares the result of a conversion with its source.
    pub verifies: bool,
    /// `--shrink`: the disk may lose its last bytes.
    pub shrinks: bool,
    /// `--help`: explains the words of the command, and does nothing else.
    pub wants_help: bool,
}

// An option with a value.
#[derive(Clone, Copy)]
enum Setting {
    Output,
    Source,
    Other,
    Below,
    Layer,
    Target,
    Layout,
    MaxSize,
    Preallocation,
}

// The settings in the words up to one of them, the option whose value comes next, whether all further words are operands, and the file below an
// image that the last word names.
#[derive(Clone, Copy)]
struct Reading<'a> {
    settings: Settings<'a>,
    awaited: Option<(Setting, &'a str)>,
    is_past_options: bool,
    layer: Option<&'a str>,
}

/// Reads the words after the program's name. Refused with the word that can't be read.
pub fn read_words<'a>(alloc: Global, words: &'a [String]) -> Result<Words<'a>, BadWord<'a>> {
    let Some((name, words)) = words.split_first() else {
        return bad("", "a command is missing");
    };
    let Some(command) = command_of(name.as_str()) else {
        return bad(name.as_str(), "there is no such command");
    };
    let mut reading = Reading {
        settings: default_settings(),
        awaited: None,
        is_past_options: false,
        layer: None,
    };
    let mut layers = Vec::new(alloc);
    for word in words {
        reading = with_word(command, reading, word.as_str())?;
        if let Some(file) = reading.layer {
            if layers.push(file).is_err() {
                return bad(file, "there is no memory for it");
            }
            reading.layer = None;
        }
    }
    if let Some((_, option)) = reading.awaited {
        return bad(option, "its value is missing");
    }
    let settings = reading.settings;
    require_partners(command, &settings, &layers)?;
    Ok(Words {
        command,
        settings,
        layers,
    })
}

// Refuses an option without the other option that it needs.
fn require_partners<'a>(
    command: Command,
    settings: &Settings<'a>,
    layers: &[&'a str],
) -> Result<(), BadWord<'a>> {
    if settings.has_layout && makes_raw_disk(command, settings) {
        return bad("-o", "a raw disk has no layout: -O qcow2 makes an image");
    }
    match (command, settings.below, settings.other) {
        (Command::Create, Some(_), None) => {
            bad("-b", "-F is to say the format of the backing file")
        }
        (Command::Create, None, Some(_)) => bad("-F", "-b is to name a backing file"),
        (Command::Convert, _, Some(_)) if layers.is_empty() => {
            bad("-F", "--backing is to name a backing file")
        }
        _ => Ok(()),
    }
}

fn bad<'a, T>(word: &'a str, reason: &'static str) -> Result<T, BadWord<'a>> {
    Err(BadWord { word, reason })
}

// The settings without any words.
fn default_settings() -> Settings<'static> {
    Settings {
        form: Form::Text,
        source: None,
        other: None,
        below: None,
        target: DiskFormat::Raw,
        layout: Layout {
            cluster_size: 65536,
            refcount_bits: 16,
            preallocate: PreallocateMode::None,
        },
        has_layout: false,
        preallocate: PreallocateMode::None,
        max_size: u64::MAX,
        flags: Flags {
            shows_progress: false,
            is_quiet: false,
            verifies: false,
            shrinks: false,
            wants_help: false,
        },
        operands: (None, None),
    }
}

fn makes_raw_disk(command: Command, settings: &Settings<'_>) -> bool {
    matches!(command, Command::Convert) && matches!(settings.target, DiskFormat::Raw)
}

fn command_of(word: &str) -> Option<Command> {
    match word.as_bytes() {
        b"info" => Some(Command::Info),
        b"map" => Some(Command::Map),
        b"check" => Some(Command::Check),
        b"vet" => Some(Command::Vet),
        b"compare" => Some(Command::Compare),
        b"convert" => Some(Command::Convert),
        b"create" => Some(Command::Create),
        b"resize" => Some(Command::Resize),
        b"--help" | b"-h" | b"help" => Some(Command::Help),
        b"--version" | b"-V" => Some(Command::Version),
        _ => None,
    }
}

// The settings with one more word.
fn with_word<'a>(
    command: Command,
    reading: Reading<'a>,
    word: &'a str,
) -> Result<Reading<'a>, BadWord<'a>> {
    let settings = reading.settings;
    if let Some((setting, _)) = reading.awaited {
        return with_value(command, settings, setting, word, word);
    }
    if reading.is_past_options || !is_option(command, word) {
        return with_operand(reading, word);
    }
    if let Some((name, value)) = word.split_once('=') {
        return match setting_of(name) {
            Some(setting) if name.starts_with("--") => with_value(
                command, settings, setting, value, word,
            ),
            _ => bad(word, NO_OPTION),
        };
    }
    if word == "--" {
        return Ok(Reading {
            is_past_options: true,
            ..reading
        });
    }
    match with_flag(command, settings, word) {
        Some(settings) => Ok(Reading {
            settings,
            ..reading
        }),
        None => with_option(command, reading, word),
    }
}

// Whether a word is an option. A size by which a disk shrinks begins like one.
fn is_option(command: Command, word: &str) -> bool {
    match word.as_bytes() {
        [b'-', b'0'..=b'9', ..] => !matches!(command, Command::Resize),
        [b'-', ..] => true,
        _ => false,
    }
}

// The settings with an option without a value; None if the command has no such option.
fn with_flag<'a>(command: Command, settings: Settings<'a>, word: &str) -> Option<Settings<'a>> {
    let flags = settings.flags;
    let flags = match word.as_bytes() {
        b"-p" if matches!(command, Command::Convert) => Flags {
            shows_progress: true,
            ..flags
        },
        b"--verify" if matches!(command, Command::Convert) => Flags {
            verifies: true,
            ..flags
        },
        b"--shrink" if matches!(command, Command::Resize) => Flags {
            shrinks: true,
            ..flags
        },
        b"-q" if takes_quiet(command) => Flags {
            is_quiet: true,
            ..flags
        },
        b"--json" if takes(command, Setting::Output) => {
            return Some(Settings {
                form: Form::Json,
                ..settings
            });
        }
        b"--help" | b"-h" if !matches!(command, Command::Help | Command::Version) => Flags {
            wants_help: true,
            ..flags
        },
        _ => return None,
    };
    Some(Settings { flags, ..settings })
}

// Whether the status says everything that the command prints.
fn takes_quiet(command: Command) -> bool {
    matches!(
        command,
        Command::Compare | Command::Convert | Command::Create | Command::Resize
    )
}

// The same settings, and an option that awaits its value.
fn with_option<'a>(
    command: Command,
    reading: Reading<'a>,
    word: &'a str,
) -> Result<Reading<'a>, BadWord<'a>> {
    match setting_of(word) {
        Some(setting) if takes(command, setting) => Ok(Reading {
            awaited: Some((setting, word)),
            ..reading
        }),
        _ => bad(word, NO_OPTION),
    }
}

fn setting_of(word: &str) -> Option<Setting> {
    match word.as_bytes() {
        b"--output" => Some(Setting::Output),
        b"-f" => Some(Setting::Source),
        b"-F" => Some(Setting::Other),
        b"-b" => Some(Setting::Below),
        b"--backing" => Some(Setting::Layer),
        b"-O" => Some(Setting::Target),
        b"-o" => Some(Setting::Layout),
        b"--max-size" => Some(Setting::MaxSize),
        b"--preallocation" => Some(Setting::Preallocation),
        _ => None,
    }
}

// Whether a command has an option.
fn takes(command: Command, setting: Setting) -> bool {
    match setting {
        Setting::Output => matches!(
            command,
            Command::Info | Command::Map | Command::Check | Command::Vet
        ),
        Setting::Source => !matches!(command, Command::Help | Command::Version),
        Setting::Other => matches!(
            command,
            Command::Compare | Command::Create | Command::Convert
        ),
        Setting::Below => matches!(command, Command::Create),
        Setting::Layer => matches!(command, Command::Convert),
        Setting::Target => matches!(command, Command::Convert),
        Setting::Layout => matches!(command, Command::Convert | Command::Create),
        Setting::MaxSize => matches!(command, Command::Vet),
        Setting::Preallocation => matches!(command, Command::Resize),
    }
}

// The settings with the value of an option, given as a word.
fn with_value<'a>(
    command: Command,
    settings: Settings<'a>,
    setting: Setting,
    value: &'a str,
    word: &'a str,
) -> Result<Reading<'a>, BadWord<'a>> {
    if !takes(command, setting) {
        return bad(word, NO_OPTION);
    }
    match value_of(command, settings, setting, value) {
        Some(settings) => Ok(Reading {
            settings,
            awaited: None,
            is_past_options: false,
            layer: match setting {
                Setting::Layer => Some(value),
                _ => None,
            },
        }),
        None => bad(word, wanted(command, setting)),
    }
}

// The settings with a value; None if it can't be read.
fn value_of<'a>(
    command: Command,
    settings: Settings<'a>,
    setting: Setting,
    value: &'a str,
) -> Option<Settings<'a>> {
    match setting {
        Setting::Output => with_form(settings, value),
        Setting::Source => with_source(command, settings, value),
        Setting::Other => Some(Settings {
            other: Some(format_of(value)?),
            ..settings
        }),
        Setting::Below => Some(Settings {
            below: Some(value),
            ..settings
        }),
        Setting::Layer => Some(settings),
        Setting::Target => with_target(settings, value),
        Setting::Layout => with_layout(command, settings, value),
        Setting::MaxSize => Some(Settings {
            max_size: size(value)?,
            ..settings
        }),
        Setting::Preallocation => Some(Settings {
            preallocate: mode_of(value)?,
            ..settings
        }),
    }
}

// What a value must be.
fn wanted(command: Command, setting: Setting) -> &'static str {
    match setting {
        Setting::Output => "the form of an answer is human or json",
        Setting::Source if !takes_raw_disks(command) => "the only format here is qcow2",
        Setting::Below | Setting::Layer => "a backing file has a name",
        Setting::Source | Setting::Other | Setting::Target =>
            "the format of a disk is raw or qcow2",
        Setting::Layout if matches!(command, Command::Create) =>
            "the options of an image are cluster_size=SIZE, refcount_bits=N and preallocation=off|metadata|falloc|full, with commas",
        Setting::Layout => "a layout is cluster_size=SIZE or refcount_bits=N, or both with a comma",
        Setting::MaxSize =>
            "not a size of 64 bits: a number of bytes, or of units of 1024 as in 64k and 1.5G",
        Setting::Preallocation => "a mode is off, metadata, falloc or full",
    }
}

fn with_form<'a>(settings: Settings<'a>, word: &str) -> Option<Settings<'a>> {
    let form = match word.as_bytes() {
        b"human" => Form::Text,
        b"json" => Form::Json,
        _ => return None,
    };
    Some(Settings { form, ..settings })
}

fn takes_raw_disks(command: Command) -> bool {
    matches!(command, Command::Convert | Command::Compare)
}

fn with_source<'a>(command: Command, settings: Settings<'a>, word: &str) -> Option<Settings<'a>> {
    let source = format_of(word)?;
    if !takes_raw_disks(command) && matches!(source, DiskFormat::Raw) {
        return None;
    }
    Some(Settings {
        source: Some(source),
        ..settings
    })
}

fn with_target<'a>(settings: Settings<'a>, word: &str) -> Option<Settings<'a>> {
    let target = format_of(word)?;
    Some(Settings { target, ..settings })
}

fn format_of(word: &str) -> Option<DiskFormat> {
    match word.as_bytes() {
        b"raw" => Some(DiskFormat::Raw),
        b"qcow2" => Some(DiskFormat::Qcow2),
        _ => None,
    }
}

// The preallocation mode for a word of QEMU.
fn mode_of(word: &str) -> Option<PreallocateMode> {
    match word.as_bytes() {
        b"off" => Some(PreallocateMode::None),
        b"metadata" => Some(PreallocateMode::FormatAllocate),
        b"falloc" => Some(PreallocateMode::FullAllocate),
        b"full" => Some(PreallocateMode::WriteData),
        _ => None,
    }
}

fn with_layout<'a>(command: Command, settings: Settings<'a>, list: &str) -> Option<Settings<'a>> {
    let layout = layout_of(command, settings.layout, list)?;
    Some(Settings {
        layout,
        has_layout: true,
        ..settings
    })
}

// A layout with the values of a list of names and values.
fn layout_of(command: Command, layout: Layout, list: &str) -> Option<Layout> {
    let mut layout = layout;
    for part in list.split(',') {
        let (name, value) = part.split_once('=')?;
        match name.as_bytes() {
            b"cluster_size" => layout.cluster_size = size(value)?,
            b"refcount_bits" => layout.refcount_bits = size(value)?,
            b"preallocation" if matches!(command, Command::Create) => {
                layout.preallocate = mode_of(value)?;
            }
            _ => return None,
        }
    }
    Some(layout)
}

fn with_operand<'a>(reading: Reading<'a>, word: &'a str) -> Result<Reading<'a>, BadWord<'a>> {
    let operands = match reading.settings.operands {
        (None, None) => (Some(word), None),
        (Some(first), None) => (Some(first), Some(word)),
        _ => return bad(word, "it is one word too many"),
    };
    Ok(Reading {
        settings: Settings {
            operands,
            ..reading.settings
        },
        ..reading
    })
}
