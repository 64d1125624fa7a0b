// What the command line asks for: options, which begin with `-`, and the files to read.
ghost use Rattle.std.specs.Prelude.{◌≡◌, IfOk};
ghost use Rattle.std.specs.Option.{option_copied};
ghost use Rattle.console.specs.Commands.{is_help, is_version, is_unknown, first_unknown, some_help, some_version, Asks};

use std::alloc::{AllocError, Global};
use std::{env, io};

// What was asked for at the command line.
#[derive(Drop)]
pub enum Command {
    // the first option that no program knows
    Unknown(String),
    Help,
    Version,
    // the files, or `-` alone for standard input where none is named
    Files(Vec<String>),
}

fn help(word: &str) -> bool
    ensures { result ≡ is_help word.now }
{
    word == "--help"
}

fn version(word: &str) -> bool
    ensures { result ≡ is_version word.now }
{
    word == "--version"
}

fn unknown(word: &str) -> bool
    ensures { result ≡ is_unknown word.now }
{
    word.starts_with("-") && word != "-" && !help(word) && !version(word)
}

// The first option that no program knows.
fn unknown_option(words: &[String]) -> Option<&String>
    ensures { option_copied result ≡ first_unknown words.now }
{
    words.iter().find(|word| unknown(word.as_str()))
}

fn asks_help(words: &[String]) -> bool
    ensures { result ≡ some_help words.now }
{
    words.iter().any(|word| help(word.as_str()))
}

fn asks_version(words: &[String]) -> bool
    ensures { result ≡ some_version words.now }
{
    words.iter().any(|word| version(word.as_str()))
}

impl Command {
    // The command that these words behind the program's name are: an unknown option goes before all else, and help
    // before the version.
    pub fn of(heap: Global, mut words: Vec<String>) -> Result<Command, AllocError>
        ensures { IfOk result (Asks words.items) }
    {
        if let Some(option) = unknown_option(words.as_slice()) {
            return Ok(Command::Unknown(option.clone()?));
        }
        if asks_help(words.as_slice()) {
            return Ok(Command::Help);
        }
        if asks_version(words.as_slice()) {
            return Ok(Command::Version);
        }
        if words.is_empty() {
            words.push(String::from_str(heap, "-")?)?;
        }
        Ok(Command::Files(words))
    }

    // What the program's arguments ask for.
    pub fn read(rt: &HostRuntime) -> io::Result<Command> {
        let heap = rt.alloc();
        let words = env::args(rt)?.skip(1).collect(heap)?;
        Ok(Command::of(heap, words)?)
    }
}
