//! What the command line of the checker asks for, the program that has `check` alone.
ghost use Rattle.std.specs.Prelude.{◌≡◌, [], IfErr, IfOk, map};
ghost use Rattle.std.specs.String.{string_bytes};
ghost use Rattle.clap.specs.Words.{FailsBy, app_of, fault_of, kind_of, subcommand_rows_of};
ghost use Rattle.clap.specs.declared.error.kind.ErrorKind.TheVariants.{OutOfMemory};
ghost use Rattle.tcc_cli.specs.Checkers.{AreAsked, Asks, AsksFor, WasAsked, checker_command};

use crate::command_line::{Files, check_command, end_unasked, files_of, words};
use crate::help;
use clap::{ArgMatches, Command, Error};
use std::alloc::{AllocError, Global};
use std::io::Write;

/// The command by which words are read.
fn command<'a>(alloc: Global) -> Result<Command<'a>, AllocError>
    ensures { IfOk result (λ made. app_of made ≡ checker_command) }
{
    let check = check_command(alloc)?;
    Command::new(alloc, "tcc_checker")
        .about("Checks certificates of causal consistency, and has no search")
        .after_help(help::CHECKER)
        .version(help::VERSION)
        .subcommand_required(true)
        .subcommand(check)
}

/// The files that the matches ask for.
fn asked_of(alloc: Global, matches: &ArgMatches) -> Result<Files, Error>
    ensures asked { IfOk result (AsksFor (subcommand_rows_of matches.now)) }
    ensures fails { IfErr result (λ e. kind_of e ≡ OutOfMemory) }
{
    let Some((_name, check)) = matches.subcommand() else {
        // Words without the command are a fault by clap, so only memory can be wanting.
        return Err(Error::from(AllocError));
    };
    files_of(alloc, check)
}

/// What the words ask for.
fn parse(alloc: Global, words: &[String]) -> Result<Files, Error>
    ensures fails { FailsBy (fault_of checker_command (map string_bytes words.now)) result }
    ensures asked { IfOk result (Asks (map string_bytes words.now)) }
{
    let matches = command(alloc)?.try_get_matches_from(words)?;
    asked_of(alloc, &matches)
}

/// What the words of the checker's command line ask for, the first of which is the program's name; else the number that the process
/// ends with. Help and the version go to `out`, a fault of the words to standard error.
pub fn read_check_words<W: Write>(
    rt: &HostRuntime,
    words: &[String],
    out: &mut W,
) -> Result<Files, u8>
    ensures { AreAsked (map string_bytes words.now) (W.contents out.old) (W.contents out.new) result }
{
    match parse(rt.alloc(), words) {
        Ok(files) => Ok(files),
        Err(error) => Err(end_unasked(rt, &error, out)),
    }
}

/// What the process was asked to check: what `read_check_words` says of its words, of which nothing more is known; else the number
/// that it ends with.
pub fn read_check<W: Write>(rt: &HostRuntime, out: &mut W) -> Result<Files, u8>
    ensures { WasAsked (W.contents out.old) (W.contents out.new) result }
{
    let words = words(rt, out)?;
    read_check_words(rt, &words, out)
}
