//! The words of `alpaca-scope`'s command line, read by `clap` into a command of the program.
#![tactic(auto)]

ghost use Rattle.std.specs.Prelude.{◌≡◌, ◌↔◌, ◌∷◌, [], IfOk, IsErrOf, Some, List, codes, false, map, option_map, string_bytes};
ghost use Rattle.clap.specs.Words.{Text, app_of, found_of, rows_of, rule_of, subcommand_of, subcommand_rows_of, with_subcommand};
ghost use Rattle.command_line.specs.CommandLine.{AreTexts, IsCommand, file_rule, has_globals, subcommand_app, subcommand_shape};
ghost use Rattle.command_line.specs.Commands.{values_of};
ghost use Rattle.scope_line.specs.ScopeLine.{IsScopeLine, NamesScopeCommand, bare_scope, bounds_line, line_found, plain_line, scope_app, scope_line_of};

use clap::error::ErrorKind;
use clap::{Arg, ArgMatches};
use std::alloc::{AllocError, Global};

/// A command of the program, with the names of its files.
#[derive(Clone, Copy)]
pub enum Command<'a> {
    /// `bounds SRC`: what each task of the source needs of a charge.
    Bounds {
        /// The file of the source.
        source: &'a str,
    },
}

/// Why the words were not read.
#[derive(Clone, Copy, Debug, PartialEq, Eq)]
pub enum WordsFault {
    /// The words are not a command line of the program.
    Usage,
    /// Memory was refused.
    Memory,
}

/// Reads `words`, those after the program's name, as a command with the names of its files.
///
/// Errors: `Usage` exactly where `clap`'s rules give a fault for the words, so that they are no line
/// of the program; `Memory` where memory was refused, which may come in place of either answer.
pub fn command_of<'a>(alloc: Global, words: &'a [String]) -> Result<Command<'a>, WordsFault>
    ensures line { IfOk result (λ _. IsScopeLine (map string_bytes words.entry.now)) }
    ensures command { IfOk result (λ c. scope_line_of (map string_bytes words.entry.now) ≡ Some (plain_line c)) }
    ensures usage { IsErrOf result WordsFault.Usage → IsScopeLine (map string_bytes words.entry.now) → ⊥ }
    ensures no_command { IsErrOf result WordsFault.Usage
        → NamesScopeCommand (map string_bytes words.entry.now) → ⊥ }
{
    let matches = matches_of(alloc, words)?;
    let (name, files) = matches.subcommand().unwrap();
    Ok(command_named(name, files).unwrap())
}

/// What a command line of the program is, in plain words: a command's name and then its files, where
/// a `--` before a file is dropped, `-` is a file's name, and no other word before a `--` may begin
/// with a hyphen.
pub fn scope_lines()
    ensures { (words : List Text) → AreTexts words → IsScopeLine words ↔ NamesScopeCommand words }
{}

/// The command of this name, with the files that `clap` found for it.
fn command_named<'a>(name: &str, files: &ArgMatches<'a>) -> Option<Command<'a>>
    ensures { option_map plain_line result ≡ line_found name.now (rows_of (found_of files.now)) }
{
    match name {
        "bounds" => {
            let source = one_file(files, "SRC")?;
            Some(Command::Bounds { source })
        }
        _ => None,
    }
}

/// The file that `clap` found under this name.
fn one_file<'a>(files: &ArgMatches<'a>, name: &str) -> Option<&'a str>
    ensures { option_map (λ f. f.now ∷ []) result ≡ values_of (name.now ∷ []) (rows_of (found_of files.now)) }
{
    files.get_str(name)
}

/// What `clap` makes of the words.
fn matches_of<'a>(alloc: Global, words: &'a [String]) -> Result<ArgMatches<'a>, WordsFault>
    ensures line { IfOk result (λ _. IsScopeLine (map string_bytes words.entry.now)) }
    ensures rows { IfOk result (λ m. subcommand_rows_of m
        ≡ subcommand_of scope_app (map string_bytes words.entry.now)) }
    ensures usage { IsErrOf result WordsFault.Usage → IsScopeLine (map string_bytes words.entry.now) → ⊥ }
{
    match scope_command(alloc) {
        Err(AllocError) => Err(WordsFault::Memory),
        Ok(command) => match command.try_get_matches_from(words) {
            Ok(matches) => Ok(matches),
            Err(error) => match error.kind() {
                ErrorKind::OutOfMemory => Err(WordsFault::Memory),
                _ => Err(WordsFault::Usage),
            },
        },
    }
}

/// The file of a source, which has to be there.
fn source_file<'a>(alloc: Global) -> Arg<'a>
    ensures rule { rule_of result ≡ file_rule (codes "SRC") }
    ensures plain { result.global ≡ false }
{
    Arg::new(alloc, "SRC").required(true)
}

/// The command `bounds` with its file.
fn bounds_command<'a>(alloc: Global) -> Result<clap::Command<'a>, AllocError>
    ensures { IfOk result (IsCommand (subcommand_app bounds_line)) }
{
    clap::Command::new(alloc, "bounds").arg(source_file(alloc))
}

/// The command line of the program with no command yet.
fn bare_command<'a>(alloc: Global) -> clap::Command<'a>
    ensures { IsCommand bare_scope result }
{
    clap::Command::new(alloc, "alpaca-scope")
        .no_binary_name(true)
        .disable_help_flag(true)
        .disable_help_subcommand(true)
        .subcommand_required(true)
}

/// `command` with the command `bounds` added to it.
fn with_bounds<'a>(
    alloc: Global,
    command: clap::Command<'a>,
) -> Result<clap::Command<'a>, AllocError>
    requires { has_globals command ≡ false }
    ensures { IfOk result (λ c. IsCommand (with_subcommand (app_of command.entry) (subcommand_shape bounds_line)) c) }
{
    let added = bounds_command(alloc)?;
    command.subcommand(added)
}

/// The command line of the program.
fn scope_command<'a>(alloc: Global) -> Result<clap::Command<'a>, AllocError>
    ensures { IfOk result (IsCommand scope_app) }
{
    let bare = bare_command(alloc);
    let command = with_bounds(alloc, bare)?;
    Ok(command)
}
