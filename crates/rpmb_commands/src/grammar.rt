//! The commands as `clap` reads them. The help of each has its name and its options.
use crate::help::{
    CHECK, DO, DO_KEY, DO_READ, DO_READ_COUNTER, DO_WRITE, EXPLAIN, PROGRAM, PROGRAM_KEY, READ,
    READ_COUNTER, READ_DATA, RESULT, WRITE,
};
use clap::{Arg, ArgAction, Command};
use command_line::VERSION;
use std::alloc::{AllocError, Global};

static COMMANDS: [&str; 8] = [
    PROGRAM_KEY,
    READ_COUNTER,
    WRITE,
    READ,
    RESULT,
    EXPLAIN,
    READ_DATA,
    CHECK,
];

/// What `do` performs.
static OPERATIONS: [&str; 4] = [DO_KEY, DO_READ_COUNTER, DO_WRITE, DO_READ];

/// The options: the name of each, what stands for its value in the help, and that help. `keys` are
/// those of several guests, and `asked-nonce` is the nonce of a request that was made before.
static OPTIONS: [&str; 17] = [
    "guest|G|The number of the guest, from 0, in the order of the board file",
    "key|KEY|@FILE of 64 hex digits, @raw:FILE of 32 bytes, or the digits, which `ps` shows to all",
    "keys|KEY|The key of all guests, or as G=KEY that of guest G alone; may be given for each \
     guest",
    "nonce|HEX|16 bytes in hex digits, random and never used before",
    "asked-nonce|HEX|16 bytes in hex digits, those that the request was made with",
    "counter|N|The write counter of the first line: 0 behind the key, one more behind each line",
    "address|A|The first block, from 0 on",
    "count|N|How many blocks, 1 to 16",
    "data|HEX|The blocks, 256 bytes each, in hex digits",
    "file|FILE|A file of the blocks, 256 bytes each",
    "pad||Fills the last block with zeros",
    "max-blocks|N|The most blocks of one write, 1 to 16",
    "no-result||Asks for no result, and so for no reply",
    "length|N|Writes the first N bytes alone, as what was written with --pad had",
    "json||Prints a JSON object a line, for machines",
    "BOARD||The board file (TOML)",
    "SCRIPT||A script for that board",
];

/// What stands before the first bar of a row, and the rest.
fn field(row: &'static str) -> (&'static str, &'static str) {
    match row.split_once('|') {
        Some(parts) => parts,
        None => (row, ""),
    }
}

/// What the table has of an option behind its name.
fn row_of(name: &str) -> &'static str {
    for row in OPTIONS.iter() {
        let (found, rest) = field(row);
        if found == name {
            return rest;
        }
    }
    ""
}

/// What an option is called on the command line.
fn id_of(name: &'static str) -> &'static str {
    match name {
        "keys" => "key",
        "asked-nonce" => "nonce",
        _ => name,
    }
}

/// An option with a name before its value. A negative number is a value, which is refused by its
/// range.
fn named<'a>(arg: Arg<'a>, id: &'static str, value: &'static str) -> Arg<'a> {
    arg.long(id).value_name(value).allow_negative_numbers(true)
}

fn option_of<'a>(alloc: Global, name: &'static str, is_needed: bool) -> Arg<'a> {
    let (value, help) = field(row_of(name));
    let id = id_of(name);
    let arg = Arg::new(alloc, id).help(help).required(is_needed);
    match name {
        "BOARD" | "SCRIPT" => arg,
        "keys" => named(arg, id, value).action(ArgAction::Append),
        _ if value.is_empty() => arg.long(id).action(ArgAction::SetTrue),
        _ => named(arg, id, value),
    }
}

fn options_of<'a>(alloc: Global, words: &'static str) -> Result<Vec<Arg<'a>>, AllocError> {
    let mut options = Vec::new(alloc);
    for word in words.split(' ') {
        let free = word.strip_suffix('?');
        options.push(option_of(alloc, free.unwrap_or(word), free.is_none()))?;
    }
    Ok(options)
}

fn command_of<'a>(alloc: Global, row: &'static str) -> Result<Command<'a>, AllocError> {
    let (name, row) = field(row);
    let (options, row) = field(row);
    let (about, more) = field(row);
    let options = options_of(alloc, options)?;
    Command::new(alloc, name)
        .about(about)
        .after_help(more)
        .args(options)
}

// for the checker: apart from the commands before it, which are dropped at one exit
fn push_command<'a>(
    commands: &mut Vec<Command<'a>>,
    command: Result<Command<'a>, AllocError>,
) -> Result<(), AllocError> {
    commands.push(command?)?;
    Ok(())
}

fn commands_of<'a>(alloc: Global, rows: &[&'static str]) -> Result<Vec<Command<'a>>, AllocError> {
    let mut commands = Vec::new(alloc);
    for row in rows {
        push_command(&mut commands, command_of(alloc, *row))?;
    }
    Ok(commands)
}

/// The command that performs an operation on the image of a board.
fn doing<'a>(alloc: Global) -> Result<Command<'a>, AllocError> {
    let operations = commands_of(alloc, &OPERATIONS)?;
    command_of(alloc, DO)?
        .subcommand_required(true)
        .subcommand_value_name("OPERATION")
        .subcommand_help_heading("Operations")
        .subcommands(operations)
}

fn all_commands<'a>(alloc: Global) -> Result<Vec<Command<'a>>, AllocError> {
    let mut commands = commands_of(alloc, &COMMANDS)?;
    push_command(&mut commands, doing(alloc))?;
    Ok(commands)
}

/// The program with all its commands.
pub fn program<'a>(alloc: Global) -> Result<Command<'a>, AllocError> {
    let commands = all_commands(alloc)?;
    Command::new(alloc, "rpmb")
        .version(VERSION)
        .about("Makes the requests of scripts for rpmbd, and says what its answers are")
        .subcommand_required(true)
        .after_help(PROGRAM)
        .subcommands(commands)
}
