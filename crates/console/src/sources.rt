// A text with the name of its file, and what a program shows of it.
use notation::{Error, TextReader, report};
use std::{fmt, io};

#[derive(Clone, Copy)]
pub struct Source<'a> {
    pub file: &'a str,
    pub text: &'a [u8],
}

impl<'a> Source<'a> {
    // Tells an error in the text.
    fn tell<P: fmt::Display>(self, rt: &HostRuntime, error: &Error<P>) -> io::Result<()> {
        rt.eprint(report(rt.alloc(), self.file, self.text, error)?)
    }

    // Shows the items of the text one after another, each by `show`, which tells whether it could; in place of an item that
    // can't be read its error is told. Gives how many items were not shown, or `None` where the text has none to be read.
    pub fn show_each<R: TextReader<'a> + Drop, F: FnMut(R::Item) -> io::Result<bool>>(
        self,
        rt: &HostRuntime,
        mut show: F,
    ) -> io::Result<Option<u64>>
        requires { (state : F) (item : _) → R.IsRead item → F.pre state item }
    {
        let mut reader = match R::open(self.text) {
            Ok(reader) => reader,
            Err(e) => {
                self.tell(rt, &e)?;
                return Ok(None);
            }
        };
        let mut failures = 0u64;
        while let Some(next) = reader.next_item(rt.alloc())? {
            let shown = match next {
                Ok(item) => show(item)?,
                Err(e) => {
                    self.tell(rt, &e)?;
                    false
                }
            };
            if !shown {
                failures = failures.saturating_add(1);
            }
        }
        Ok(Some(failures))
    }
}
