//! The commands as `clap` reads them, with the texts of their help.
ghost use Rattle.std.specs.Prelude.{◌≡◌, IfOk, codes, false};
ghost use Rattle.clap.specs.Words.{app_of, rule_of, with_rule, with_subcommand};
ghost use Rattle.clap.specs.declared.builder.command.Command.TheViews.{out-Command as fields_of};
ghost use Rattle.command_line.specs.Program.{bare, command_of, flag, option, program, required};

use crate::help;
use clap::{Arg, ArgAction, Command};
use std::alloc::{AllocError, Global};

/// An argument that has to be given.
fn required<'a>(alloc: Global, id: &'a str, help: &'a str) -> Arg<'a>
    ensures rule { rule_of result ≡ required id.entry.now }
    ensures local { result.global ≡ false }
{
    Arg::new(alloc, id).required(true).help(help)
}

/// An option that is there or not.
fn flag<'a>(alloc: Global, id: &'a str, help: &'a str) -> Arg<'a>
    ensures rule { rule_of result ≡ flag id.entry.now }
    ensures local { result.global ≡ false }
{
    Arg::new(alloc, id)
        .long(id)
        .action(ArgAction::SetTrue)
        .help(help)
}

/// An option that has a value, which help calls `value`.
fn option<'a>(alloc: Global, id: &'a str, value: &'a str, help: &'a str) -> Arg<'a>
    ensures rule { rule_of result ≡ option id.entry.now }
    ensures local { result.global ≡ false }
{
    Arg::new(alloc, id).long(id).value_name(value).help(help)
}

/// The files that a command takes, and its options.
#[derive(Clone, Copy)]
enum Files {
    Fresh,
    Shown,
    Board,
    BoardAndScript,
}

/// A command with one argument more.
fn with_argument<'a>(command: Command<'a>, argument: Arg<'a>) -> Result<Command<'a>, AllocError>
    requires { argument.global ≡ false }
    ensures shape { IfOk result
        (λ c. app_of c ≡ with_rule (app_of command.entry) (rule_of argument.entry)) }
    ensures local { (fields_of command.entry).has_globals ≡ false
        → IfOk result (λ c. (fields_of c).has_globals ≡ false) }
{
    command.arg(argument)
}

/// A command with the options of what makes an image.
fn with_fresh<'a>(alloc: Global, command: Command<'a>) -> Result<Command<'a>, AllocError>
    ensures shape { IfOk result (λ c. app_of c ≡ with_rule (with_rule (app_of command.entry)
        (flag (codes "new"))) (option (codes "image-version"))) }
    ensures local { (fields_of command.entry).has_globals ≡ false
        → IfOk result (λ c. (fields_of c).has_globals ≡ false) }
{
    let command = with_argument(command, flag(alloc, "new", "Refuses a file that is there"))?;
    let help =
        "1, or 2, which takes two syncs a write, not four, where a guest writes on [default: 1]";
    with_argument(command, option(alloc, "image-version", "VERSION", help))
}

/// A command that takes files; `more` stands below its usage.
fn command<'a>(
    alloc: Global,
    files: Files,
    name: &'a str,
    about: &'a str,
    more: &'a str,
) -> Result<Command<'a>, AllocError>
    ensures shape { IfOk result (λ c. app_of c ≡ command_of files name.entry.now) }
    ensures local { IfOk result (λ c. (fields_of c).has_globals ≡ false) }
{
    let board = required(alloc, "BOARD", "The board file (TOML): what the guests are");
    let command = Command::new(alloc, name).about(about).after_help(more);
    let command = command.arg(board)?;
    match files {
        Files::Fresh => with_fresh(alloc, command),
        Files::Shown => {
            let help = "Prints a JSON object a line, for machines";
            command.arg(flag(alloc, "json", help))
        }
        Files::Board => Ok(command),
        Files::BoardAndScript => command.arg(required(
            alloc,
            "SCRIPT",
            "The script: what the guests do, one step a line",
        )),
    }
}

fn bare<'a>(alloc: Global) -> Command<'a>
    ensures { app_of result ≡ bare }
{
    Command::new(alloc, "rpmbd")
        .version(help::VERSION)
        .about(
            "Performs scripts on virtio RPMB devices, \
             and makes and shows images of their partitions",
        )
        .after_help(help::PROGRAM)
        .subcommand_required(true)
}

/// `program` with one command more.
fn with_command<'a>(
    alloc: Global,
    program: Command<'a>,
    files: Files,
    name: &'a str,
    about: &'a str,
    more: &'a str,
) -> Result<Command<'a>, AllocError>
    ensures { IfOk result (λ c.
        app_of c ≡ with_subcommand (app_of program.entry) (command_of files name.entry.now).top) }
{
    program.subcommand(command(alloc, files, name, about, more)?)
}

/// The program with all its commands.
pub fn program<'a>(alloc: Global) -> Result<Command<'a>, AllocError>
    ensures { IfOk result (λ c. app_of c ≡ program) }
{
    let program = with_command(
        alloc,
        bare(alloc),
        Files::Fresh,
        "format",
        "Makes a fresh image of the board, over what its file holds",
        help::FORMAT,
    )?;
    let program = with_command(
        alloc,
        program,
        Files::Shown,
        "show",
        "Prints what the image of the board holds",
        help::SHOW,
    )?;
    let program = with_command(
        alloc,
        program,
        Files::Board,
        "upgrade",
        "Makes the image of the board one of version 2, in place",
        help::UPGRADE,
    )?;
    let program = with_command(
        alloc,
        program,
        Files::BoardAndScript,
        "run",
        "Performs a script, line by line, and prints a line for each chain",
        help::RUN,
    )?;
    with_command(
        alloc,
        program,
        Files::BoardAndScript,
        "serve",
        "Performs a script, all guests at once, and prints each guest's lines",
        help::SERVE,
    )
}
