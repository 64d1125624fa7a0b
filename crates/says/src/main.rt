// The program `says`: reads questions from files or from standard input, and prints each in the normal form, with what
// must be so of the names of its first claim.
#![tactic(auto)]

ghost use Rattle.claims.specs.Meaning.{question_of};
ghost use Rattle.claims.specs.Words.{Limits};

use console::{Program, Source, run};
use findings::Description;
use notation::{Asked, Reader};
use std::alloc::{AllocError, Global};
use std::io;
use std::process::ExitCode;

#[derive(Drop)]
struct Says;

impl Program for Says {
    const NAME: &'static str = "says";

    const VERSION: &'static str = "says 0.1, proved with rattle-kit-13f logic dac8208d650f15bf\n";

    const HELP: &'static str = "usage: says [FILE..]

Reads questions about linked cells from the files, or from standard input, and prints each in
the normal form, with how many names and parts it has, and what was found out about its first
claim: that it can't be, or which names must be the same or other without being given so.

  --help      this text
  --version   which program this is

A question, in words or on one line:

  if   cell a b               # a cell at a that leads to b
       row b nowhere          # a row of cells from b to nowhere
  then other a nowhere        # a isn't nowhere
       row a nowhere

  a |-> b * ls(b, nil) |- a != nil * ls(a, nil)
";

    fn begin(_heap: Global) -> Result<Says, AllocError> {
        Ok(Says)
    }

    // Prints the questions of the text.
    fn show_text(&mut self, rt: &HostRuntime, source: Source<'_>) -> io::Result<bool> {
        let show = |asked: Asked<'_>|
            requires { Limits (question_of asked.question) }
        {
            rt.println(Description { asked: &asked })?;
            Ok(true)
        };
        let failures = source.show_each::<Reader, _>(rt, show)?;
        Ok(failures == Some(0))
    }
}

fn main(rt: HostRuntime) -> anyhow::Result<ExitCode> {
    Ok(run::<Says>(&rt)?)
}
