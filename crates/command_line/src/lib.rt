//! The words of the command line, read by `clap` into a command of the program.
#![tactic(auto)]

ghost use Rattle.std.specs.Prelude.{◌≡◌, ◌↔◌, ◌∷◌, [], IfOk, IsErrOf, Some, List, false, map, option_map, string_bytes, decimal};
ghost use Rattle.std.specs.List.{list_any};
ghost use Rattle.clap.specs.Words.{Text, app_of, found_of, rows_of, rule_of, subcommand_of, subcommand_rows_of, with_subcommand};
ghost use Rattle.command_line.specs.CommandLine.{
  AreTexts,
  IsCommand,
  IsLine,
  alpaca_app,
  bare_app,
  begins_with_hyphen,
  file_rule,
  has_globals,
  line_of,
  number_said,
  plain_line_of,
  subcommand_app,
  subcommand_shape,
};
ghost use Rattle.command_line.specs.Commands.{IsNoneOf, IsPlainLine, NamesCommand, compiler_names, line_found, plain_line, plain_names, values_of};

use clap::error::ErrorKind;
use clap::{Arg, ArgMatches, value_parser};
use std::alloc::{AllocError, Global};

/// The commands, each with the names of what has to follow it: files, and the number N.
static COMMANDS: [(&str, &[&str]); 12] = [
    ("mean", &["SRC", "TRACE"]),
    ("try", &["SRC", "TRACE", "IMAGE"]),
    ("build", &["SRC", "IMAGE"]),
    ("run", &["IMAGE", "TRACE"]),
    ("asm", &["ASM", "IMAGE"]),
    ("dis", &["IMAGE"]),
    ("gen", &["N", "IMAGE"]),
    ("save", &["IMAGE", "TRACE", "STATE"]),
    ("resume", &["IMAGE", "STATE", "TRACE"]),
    (
        "migrate",
        &["SRC", "IMAGE", "STATE", "NEWSRC", "NEWIMAGE", "NEWSTATE"],
    ),
    ("undo", &["SRC", "TRACE", "IMAGE"]),
    ("audit", &["SRC", "REPORT", "TRACE"]),
];

/// A command of the program, with the names of its files and its number.
#[derive(Clone, Copy)]
pub enum Command<'a> {
    /// `mean SRC TRACE`: what the source means on the trace's readings.
    Mean {
        /// The file of the source.
        source: &'a str,
        /// The file of the trace.
        trace: &'a str,
    },
    /// `try SRC TRACE IMAGE`: the image of a source, and its run under the trace.
    Try {
        /// The file of the source.
        source: &'a str,
        /// The file of the trace.
        trace: &'a str,
        /// The file that is to hold the image.
        image: &'a str,
    },
    /// `build SRC IMAGE`: the image of a source.
    Build {
        /// The file of the source.
        source: &'a str,
        /// The file that is to hold the image.
        image: &'a str,
    },
    /// `run IMAGE TRACE`: a run of the image on the board, whose power is cut wherever the trace says.
    Run {
        /// The file of the image.
        image: &'a str,
        /// The file of the trace.
        trace: &'a str,
    },
    /// `asm ASM IMAGE`: the image of an assembler text.
    Asm {
        /// The file of the assembler text.
        assembly: &'a str,
        /// The file that is to hold the image.
        image: &'a str,
    },
    /// `dis IMAGE`: the assembler text of an image.
    Dis {
        /// The file of the image.
        image: &'a str,
    },
    /// `gen N IMAGE`: the image of the source that is generated from N, and its run.
    Gen {
        /// The number N.
        number: u32,
        /// The file that is to hold the image.
        image: &'a str,
    },
    /// `save IMAGE TRACE STATE`: the state of the board at the end of an image's run.
    Save {
        /// The file of the image, which may be a state.
        image: &'a str,
        /// The file of the trace.
        trace: &'a str,
        /// The file that is to hold the state.
        state: &'a str,
    },
    /// `resume IMAGE STATE TRACE`: a run of the board that goes on from a saved state of the image.
    Resume {
        /// The file of the image.
        image: &'a str,
        /// The file of the state.
        state: &'a str,
        /// The file of the trace.
        trace: &'a str,
    },
    /// `migrate SRC IMAGE STATE NEWSRC NEWIMAGE NEWSTATE`: the state of a new version of a program that goes on in place of an old one.
    Migrate {
        /// The file of the old source.
        source: &'a str,
        /// The file of its image.
        image: &'a str,
        /// The file of the old state.
        state: &'a str,
        /// The file of the new source.
        new_source: &'a str,
        /// The file of its image.
        new_image: &'a str,
        /// The file that is to hold the new state.
        new_state: &'a str,
    },
    /// `undo SRC TRACE IMAGE`: the same as `try`, with the runtime that works in place and puts old words back.
    Undo {
        /// The file of the source.
        source: &'a str,
        /// The file of the trace.
        trace: &'a str,
        /// The file that is to hold the image.
        image: &'a str,
    },
    /// `audit SRC REPORT TRACE`: whether the source could have told the report on the trace's readings.
    Audit {
        /// The file of the source.
        source: &'a str,
        /// The file of the report.
        report: &'a str,
        /// The file of the trace.
        trace: &'a str,
    },
}

/// Why the words were not read.
#[derive(Clone, Copy, Debug, PartialEq, Eq)]
pub enum WordsFault {
    /// The words are not a command line of the program.
    Usage,
    /// Memory was refused.
    Memory,
}

/// Reads `words`, those after the program's name, as a command with the names of its files.
///
/// Errors: `Usage` exactly where `clap`'s rules give a fault for the words, so that they are no line
/// of the program; `Memory` where memory was refused, which may come in place of either answer.
pub fn command_of<'a>(alloc: Global, words: &'a [String]) -> Result<Command<'a>, WordsFault>
    ensures line { IfOk result (λ _. IsLine (map string_bytes words.entry.now)) }
    ensures command { IfOk result (λ c. line_of (map string_bytes words.entry.now) ≡ Some (plain_line c)) }
    ensures usage { IsErrOf result WordsFault.Usage → IsLine (map string_bytes words.entry.now) → ⊥ }
    ensures no_command { IsErrOf result WordsFault.Usage
        → NamesCommand (map string_bytes words.entry.now) → ⊥ }
    ensures plain { list_any begins_with_hyphen (map string_bytes words.entry.now) ≡ false
        → IfOk result (λ c. plain_line_of (map string_bytes words.entry.now) ≡ Some (plain_line c)) }
    ensures no_plain { list_any begins_with_hyphen (map string_bytes words.entry.now) ≡ false
        → IsErrOf result WordsFault.Usage → IsPlainLine (map string_bytes words.entry.now) → ⊥ }
{
    let matches = matches_of(alloc, words)?;
    let (name, files) = matches.subcommand().unwrap();
    Ok(command_named(name, files).unwrap())
}

/// What a command line of the program is, in plain words: a command's name and then its files, where
/// a `--` before a file is dropped, `-` is a file's name, and no other word before a `--` may begin
/// with a hyphen. N is decimal digits, maybe behind a sign. Where no word begins with a hyphen, a line is
/// exactly a command's name and its files.
pub fn command_lines()
    ensures lines { (words : List Text) → AreTexts words → IsLine words ↔ NamesCommand words }
    ensures plain_lines { (words : List Text) → AreTexts words
        → list_any begins_with_hyphen words ≡ false → IsLine words ↔ IsPlainLine words }
{}

/// The command of this name, with the files that `clap` found for it.
fn command_named<'a>(name: &str, files: &ArgMatches<'a>) -> Option<Command<'a>>
    ensures { option_map plain_line result ≡ line_found name.now (rows_of (found_of files.now)) }
{
    match name {
        "mean" => {
            let (source, trace) = two_files(files, "SRC", "TRACE")?;
            Some(Command::Mean { source, trace })
        }
        "run" => {
            let (image, trace) = two_files(files, "IMAGE", "TRACE")?;
            Some(Command::Run { image, trace })
        }
        "asm" => {
            let (assembly, image) = two_files(files, "ASM", "IMAGE")?;
            Some(Command::Asm { assembly, image })
        }
        "dis" => {
            let image = one_file(files, "IMAGE")?;
            Some(Command::Dis { image })
        }
        "audit" => {
            let (source, report, trace) = three_files(files, "SRC", "REPORT", "TRACE")?;
            Some(Command::Audit {
                source,
                report,
                trace,
            })
        }
        _ => compiler_command_named(name, files),
    }
}

/// The same of a name that is none of a plain command: one of a command that compiles, or one on states.
fn compiler_command_named<'a>(name: &str, files: &ArgMatches<'a>) -> Option<Command<'a>>
    requires { IsNoneOf name.now plain_names }
    ensures { option_map plain_line result ≡ line_found name.now (rows_of (found_of files.now)) }
{
    match name {
        "build" => {
            let (source, image) = two_files(files, "SRC", "IMAGE")?;
            Some(Command::Build { source, image })
        }
        "try" => {
            let (source, trace, image) = three_files(files, "SRC", "TRACE", "IMAGE")?;
            Some(Command::Try {
                source,
                trace,
                image,
            })
        }
        "undo" => {
            let (source, trace, image) = three_files(files, "SRC", "TRACE", "IMAGE")?;
            Some(Command::Undo {
                source,
                trace,
                image,
            })
        }
        "gen" => {
            let (number, image) = two_files(files, "N", "IMAGE")?;
            let number = number_of(number)?;
            Some(Command::Gen { number, image })
        }
        _ => state_command_named(name, files),
    }
}

/// The same of a name that is of a command on states, if of any.
fn state_command_named<'a>(name: &str, files: &ArgMatches<'a>) -> Option<Command<'a>>
    requires plain { IsNoneOf name.now plain_names }
    requires compiler { IsNoneOf name.now compiler_names }
    ensures { option_map plain_line result ≡ line_found name.now (rows_of (found_of files.now)) }
{
    match name {
        "save" => {
            let (image, trace, state) = three_files(files, "IMAGE", "TRACE", "STATE")?;
            Some(Command::Save {
                image,
                trace,
                state,
            })
        }
        "resume" => {
            let (image, state, trace) = three_files(files, "IMAGE", "STATE", "TRACE")?;
            Some(Command::Resume {
                image,
                state,
                trace,
            })
        }
        "migrate" => {
            let (source, image, state) = three_files(files, "SRC", "IMAGE", "STATE")?;
            let (new_source, new_image, new_state) = three_files(
                files, "NEWSRC", "NEWIMAGE", "NEWSTATE",
            )?;
            Some(Command::Migrate {
                source,
                image,
                state,
                new_source,
                new_image,
                new_state,
            })
        }
        _ => None,
    }
}

/// The number of 32 bits that a word says, as `clap` reads one.
fn number_of(word: &str) -> Option<u32>
    ensures { option_map (λ n. decimal n) result ≡ number_said word.now }
{
    let number = word.parse::<i64>().ok()?;
    u32::try_from(number).ok()
}

/// The file that `clap` found under this name.
fn one_file<'a>(files: &ArgMatches<'a>, name: &str) -> Option<&'a str>
    ensures { option_map (λ f. f.now ∷ []) result ≡ values_of (name.now ∷ []) (rows_of (found_of files.now)) }
{
    files.get_str(name)
}

/// The files that `clap` found under these two names.
fn two_files<'a>(files: &ArgMatches<'a>, first: &str, second: &str) -> Option<(&'a str, &'a str)>
    ensures { option_map (λ p. p.0.now ∷ p.1.now ∷ []) result ≡ values_of (first.now ∷ second.now ∷ []) (rows_of (found_of files.now)) }
{
    let first = files.get_str(first)?;
    let second = files.get_str(second)?;
    Some((first, second))
}

/// The files that `clap` found under these three names.
fn three_files<'a>(
    files: &ArgMatches<'a>,
    first: &str,
    second: &str,
    third: &str,
) -> Option<(&'a str, &'a str, &'a str)>
    ensures { option_map (λ p. p.0.now ∷ p.1.now ∷ p.2.now ∷ []) result
        ≡ values_of (first.now ∷ second.now ∷ third.now ∷ []) (rows_of (found_of files.now)) }
{
    let first = files.get_str(first)?;
    let second = files.get_str(second)?;
    let third = files.get_str(third)?;
    Some((first, second, third))
}

/// What `clap` makes of the words.
fn matches_of<'a>(alloc: Global, words: &'a [String]) -> Result<ArgMatches<'a>, WordsFault>
    ensures line { IfOk result (λ _. IsLine (map string_bytes words.entry.now)) }
    ensures rows { IfOk result (λ m. subcommand_rows_of m
        ≡ subcommand_of alpaca_app (map string_bytes words.entry.now)) }
    ensures usage { IsErrOf result WordsFault.Usage → IsLine (map string_bytes words.entry.now) → ⊥ }
{
    match alpaca_command(alloc) {
        Err(AllocError) => Err(WordsFault::Memory),
        Ok(command) => match command.try_get_matches_from(words) {
            Ok(matches) => Ok(matches),
            Err(error) => match error.kind() {
                ErrorKind::OutOfMemory => Err(WordsFault::Memory),
                _ => Err(WordsFault::Usage),
            },
        },
    }
}

/// An argument that has to be there: N is a number, and each other one is a text.
fn positional<'a>(alloc: Global, name: &'static str) -> Arg<'a>
    ensures rule { rule_of result ≡ file_rule name.entry.now }
    ensures plain { result.global ≡ false }
{
    let argument = Arg::new(alloc, name).required(true);
    if name == "N" {
        argument.value_parser(value_parser!(u32))
    } else {
        argument
    }
}

/// The command `name` with its files, which have to be there in this order.
fn file_command<'a>(
    alloc: Global,
    name: &'static str,
    files: &'static [&'static str],
) -> Result<clap::Command<'a>, AllocError>
    ensures { IfOk result (IsCommand (subcommand_app (record {
      name = name.entry.now;
      files = map (λ f. f.now) files.now;
    }))) }
{
    let mut command = clap::Command::new(alloc, name);
    for file in files {
        command = command.arg(positional(alloc, file))?;
    }
    Ok(command)
}

/// `command` with the command `name` added to it, which has these files.
fn with_files<'a>(
    alloc: Global,
    command: clap::Command<'a>,
    name: &'static str,
    files: &'static [&'static str],
) -> Result<clap::Command<'a>, AllocError>
    requires { has_globals command ≡ false }
    ensures { IfOk result (λ c. IsCommand (with_subcommand (app_of command.entry) (subcommand_shape (record {
      name = name.entry.now;
      files = map (λ f. f.now) files.now;
    }))) c) }
{
    let added = file_command(alloc, name, files)?;
    command.subcommand(added)
}

/// The command line of the program with no command yet.
fn bare_command<'a>(alloc: Global) -> clap::Command<'a>
    ensures { IsCommand bare_app result }
{
    clap::Command::new(alloc, "alpaca")
        .no_binary_name(true)
        .disable_help_flag(true)
        .disable_help_subcommand(true)
        .subcommand_required(true)
}

/// The command line of the program.
fn alpaca_command<'a>(alloc: Global) -> Result<clap::Command<'a>, AllocError>
    ensures { IfOk result (IsCommand alpaca_app) }
{
    let mut command = bare_command(alloc);
    for (name, files) in COMMANDS.as_slice() {
        command = with_files(alloc, command, name, files)?;
    }
    Ok(command)
}
