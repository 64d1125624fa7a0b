// A program that shows the texts of files: its options and files are read here, and what it shows is its own.
use crate::commands::Command;
use crate::inputs::load_named;
use crate::sources::Source;
use notation::MOST_BYTES;
use std::alloc::{AllocError, Global};
use std::io;
use std::process::ExitCode;

// What one program has, and another has otherwise.
pub trait Program: Drop {
    const NAME: &'static str;

    const VERSION: &'static str;

    const HELP: &'static str;

    // What goes on from one text to the next.
    fn begin(heap: Global) -> Result<Self, AllocError>;

    // Shows a text; tells whether all of it was read.
    fn show_text(&mut self, rt: &HostRuntime, source: Source<'_>) -> io::Result<bool>;

    // Shows what stands below the last text.
    fn end(&self, _rt: &HostRuntime) -> io::Result<()> {
        Ok(())
    }
}

// Reads one file and shows its text; tells whether all was read.
fn show_file<P: Program>(rt: &HostRuntime, program: &mut P, file: &str) -> io::Result<bool> {
    match load_named(rt, file, MOST_BYTES) {
        Ok(text) => {
            let text = text.as_slice();
            program.show_text(rt, Source { file, text })
        }
        Err(e) => {
            let name = P::NAME;
            eprintln!(rt; "{name}: {file}: {e}")?;
            Ok(false)
        }
    }
}

// Shows all files; tells whether all was read.
fn show_files<P: Program>(rt: &HostRuntime, files: &[String]) -> io::Result<bool> {
    let mut program = P::begin(rt.alloc())?;
    let mut good = true;
    for file in files {
        good &= show_file(rt, &mut program, file.as_str())?;
    }
    program.end(rt)?;
    Ok(good)
}

// Does what the command line asks for; tells whether there was no error.
fn obey<P: Program>(rt: &HostRuntime) -> io::Result<bool> {
    match Command::read(rt)? {
        Command::Unknown(option) => {
            let name = P::NAME;
            eprintln!(rt; "{name}: there is no option {option} (see {name} --help)")?;
            Ok(false)
        }
        Command::Help => {
            rt.print(P::HELP)?;
            Ok(true)
        }
        Command::Version => {
            rt.print(P::VERSION)?;
            Ok(true)
        }
        Command::Files(files) => show_files::<P>(rt, files.as_slice()),
    }
}

// Runs the program. Where there was an error, its message is out already, and the status tells of it.
pub fn run<P: Program>(rt: &HostRuntime) -> io::Result<ExitCode> {
    Ok(if obey::<P>(rt)? {
        ExitCode::SUCCESS
    } else {
        ExitCode::FAILURE
    })
}
