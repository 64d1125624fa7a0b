// Reading a question's words into plain lists, one word after the other. Like the lists, it shares no code with how
// `claims` reads them.
use crate::parts::{Claim, Part, Question};
use anyhow::{Context, Error, anyhow};
use std::alloc::Global;
use std::slice::Iter;

// The words that are not read yet.
#[derive(Drop)]
pub struct Words<'a> {
    left: Iter<'a, u32>,
}

impl Words<'_> {
    pub fn of(all: &[u32]) -> Words<'_> {
        Words { left: all.iter() }
    }

    pub fn next(&mut self) -> anyhow::Result<u32> {
        self.left.next().copied().context("the words end too early")
    }

    fn name(&mut self, names: u32) -> anyhow::Result<u32> {
        let name = self.next()?;
        if name >= names {
            return Err(anyhow!("there is no such name"));
        }
        Ok(name)
    }

    fn part<K: TryFrom<u32, Error = Error> + Drop>(
        &mut self,
        names: u32,
    ) -> anyhow::Result<Part<K>> {
        Ok(Part {
            kind: K::try_from(self.next()?)?,
            left: self.name(names)?,
            right: self.name(names)?,
        })
    }

    fn parts<K: TryFrom<u32, Error = Error> + Drop>(
        &mut self,
        heap: Global,
        names: u32,
        count: u32,
    ) -> anyhow::Result<Vec<Part<K>>> {
        let mut parts = Vec::new(heap);
        for _ in 0..count {
            parts.push(self.part(names)?)?;
        }
        Ok(parts)
    }

    fn claim(&mut self, heap: Global, names: u32) -> anyhow::Result<Claim> {
        let pures = self.next()?;
        let atoms = self.next()?;
        Ok(Claim {
            pures: self.parts(heap, names, pures)?,
            atoms: self.parts(heap, names, atoms)?,
        })
    }
}

// The question that the words are. The limits of names and parts are not asked for.
pub fn read(heap: Global, all: &[u32]) -> anyhow::Result<Question> {
    let mut words = Words::of(all);
    let names = words.next()?;
    let first = words.claim(heap, names)?;
    let second = words.claim(heap, names)?;
    if words.left.next().is_some() {
        return Err(anyhow!("there are more words than the question has"));
    }
    Ok(Question {
        names,
        first,
        second,
    })
}
