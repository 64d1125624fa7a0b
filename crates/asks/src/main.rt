// The program `asks`: reads questions from files or from standard input, and answers each: does the first claim say the
// second? Where it does not, a memory shows it.
#![tactic(auto)]

ghost use Rattle.claims.specs.Meaning.{question_of};
ghost use Rattle.claims.specs.Words.{Limits};

use answers::{Lent, Tally, ask, page};
use console::{Program, Source, run};
use notation::{Asked, Reader};
use std::alloc::{AllocError, Global};
use std::io;
use std::process::ExitCode;

// What goes on from one question to the next.
#[derive(Drop)]
struct Asks {
    lent: Lent,
    tally: Tally,
}

impl Asks {
    // Answers one question.
    fn show(&mut self, rt: &HostRuntime, asked: &Asked) -> io::Result<()>
        requires { Limits (question_of asked.now.question) }
    {
        let heap = rt.alloc();
        let answer = ask(heap, &asked.question, &mut self.lent)?;
        self.tally.add(&answer);
        rt.println(page(heap, asked, &answer)?)
    }
}

impl Program for Asks {
    const NAME: &'static str = "asks";

    const VERSION: &'static str = "asks 0.2, proved with rattle-kit-13f logic dac8208d650f15bf\n";

    const HELP: &'static str = "usage: asks [FILE..]

Reads questions about linked cells from the files, or from standard input, and answers each:
does the first claim say the second? The first line is `follows` or `fails`. Below it stand the
question in the normal form, with how many names and parts it has, what must be so of its first
claim without being given, and, where it fails, a memory of which the first claim holds and the
second does not. The program `holds` reads that memory.

  --help      this text
  --version   which program this is

A question, in words or on one line:

  if   cell a b               # a cell at a that leads to b
       row b nowhere          # a row of cells from b to nowhere
  then other a nowhere        # a isn't nowhere
       row a nowhere

  a |-> b * ls(b, nil) |- a != nil * ls(a, nil)

The exit status is 0 if all was read, whatever the answers, and 1 if anything was not.
";

    fn begin(heap: Global) -> Result<Asks, AllocError> {
        Ok(Asks {
            lent: Lent::new(heap)?,
            tally: Tally::default(),
        })
    }

    // Answers the questions of the text.
    fn show_text(&mut self, rt: &HostRuntime, source: Source<'_>) -> io::Result<bool> {
        let answer = |asked: Asked<'_>|
            requires { Limits (question_of asked.question) }
        {
            self.show(rt, &asked)?;
            Ok(true)
        };
        let unread = source.show_each::<Reader, _>(rt, answer)?;
        self.tally.add_unread(unread.unwrap_or(0));
        Ok(unread == Some(0))
    }

    // Counts the answers, where there was more than one question.
    fn end(&self, rt: &HostRuntime) -> io::Result<()> {
        if self.tally.questions() > 1 {
            rt.println(self.tally)?;
        }
        Ok(())
    }
}

fn main(rt: HostRuntime) -> anyhow::Result<ExitCode> {
    Ok(run::<Asks>(&rt)?)
}
