// The program `holds`: reads claims and memories from files or from standard input, and tells of each claim
// whether it holds of its memory, or why not.
#![tactic(auto)]

use console::{Program, Source, run};
use memory_notation::{Answer, Cases, judge};
use std::alloc::{AllocError, Global};
use std::io;
use std::process::ExitCode;

#[derive(Drop)]
struct Holds;

impl Program for Holds {
    const NAME: &'static str = "holds";

    const VERSION: &'static str = "holds 0.1, proved with rattle-kit-13f logic dac8208d650f15bf\n";

    const HELP: &'static str = "usage: holds [FILE..]

Reads claims about linked cells, each with a memory, from the files, or from standard input, and
tells whether the claim holds of the memory, or why not.

  --help      this text
  --version   which program this is

A claim and a memory:

  claim  row a b              # a row of cells from a to b
         cell b c             # a cell at b that leads to c
  memory a = 1, b = 3         # what each name stands for
         c = nowhere
         1 -> 2, 2 -> 3       # the cells, each with its place and where it leads
         3 -> nowhere

`nothing` stands for a claim or a memory without entries.
";

    fn begin(_heap: Global) -> Result<Holds, AllocError> {
        Ok(Holds)
    }

    // Answers the cases of the text.
    fn show_text(&mut self, rt: &HostRuntime, source: Source<'_>) -> io::Result<bool> {
        let heap = rt.alloc();
        let failures = source.show_each::<Cases, _>(rt, |case| {
            let answer = judge(heap, &case)?;
            rt.println(&answer)?;
            Ok(!matches!(answer, Answer::Refused))
        })?;
        Ok(failures == Some(0))
    }
}

fn main(rt: HostRuntime) -> anyhow::Result<ExitCode> {
    Ok(run::<Holds>(&rt)?)
}
