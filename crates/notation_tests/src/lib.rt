// Tests of the notation: its limits at their edges, its errors and where they are, and that the normal form
// of a question reads as the same question.
#![tactic(auto)]

#[cfg(test)]
mod tests {
    use notation::{Asked, Reader, normal_form};
    use std::alloc::{AllocError, Global};
    use std::process::Abort;
    use std::test::Fail;

    // The only question of the text, if there is one without an error.
    fn asked(heap: Global, text: &[u8]) -> Result<Option<Asked<'_>>, AllocError> {
        let Ok(mut reader) = Reader::new(text) else {
            return Ok(None);
        };
        match reader.next(heap)? {
            Some(Ok(asked)) => Ok(Some(asked)),
            _ => Ok(None),
        }
    }

    // Is a claim read that has so many parts with names `n0` up to `nN`, N being `last`?
    fn is_read(heap: Global, word: &str, parts: usize, last: usize) -> Result<bool, AllocError> {
        let mut text = String::from_str(heap, "if nothing then\n")?;
        for i in 0..parts {
            let name = i.min(last);
            text.push_str(format!(in heap; "{word} n{name} nil\n")?.as_str())?;
        }
        Ok(asked(heap, text.as_bytes())?.is_some())
    }

    #[test]
    fn names(rt: HostRuntime) -> Result<(), Fail> {
        assert!(rt;
            is_read(rt.alloc(), "same", 100, 62)?,
            "64 names with nowhere"
        );
        assert!(rt; !is_read(rt.alloc(), "same", 100, 63)?, "65 names");
        Ok(())
    }

    #[test]
    fn pures(rt: HostRuntime) -> Result<(), Fail> {
        assert!(rt; is_read(rt.alloc(), "other", 256, 3)?, "256");
        assert!(rt; !is_read(rt.alloc(), "other", 257, 3)?, "257");
        Ok(())
    }

    #[test]
    fn atoms(rt: HostRuntime) -> Result<(), Fail> {
        assert!(rt; is_read(rt.alloc(), "row", 64, 3)?, "64");
        assert!(rt; !is_read(rt.alloc(), "row", 65, 3)?, "65");
        Ok(())
    }

    // The first error of the text stands there, and its message begins so.
    fn fails(
        rt: &impl Abort,
        heap: Global,
        text: &str,
        line: usize,
        column: usize,
        message: &str,
    ) -> Result<(), Fail> {
        let Ok(mut reader) = Reader::new(text.as_bytes()) else {
            return Err(Fail::new("the text is refused"));
        };
        let Some(Err(error)) = reader.next(heap)? else {
            return Err(Fail::new("there is no error"));
        };
        let problem = error.problem;
        let found = format!(in heap; "{problem}")?;
        assert_eq!(rt; error.line, line);
        assert_eq!(rt; error.column, column);
        assert!(rt; found.as_str().starts_with(message), "{}", text);
        Ok(())
    }

    #[test]
    fn word_form(rt: HostRuntime) -> Result<(), Fail> {
        let heap = rt.alloc();
        fails(
            &rt,
            heap,
            "if rwo a b",
            1,
            4,
            "`rwo` is no word of the notation: expected `same`, ",
        )?;
        fails(
            &rt,
            heap,
            "# x\r\nif row a # b\r\nthen",
            2,
            9,
            "expected a name after `row a`, found the end of the line",
        )?;
        fails(
            &rt,
            heap,
            "if cell a nothing",
            1,
            11,
            "expected a name after `cell a`, found `nothing`, which is",
        )?;
        fails(
            &rt,
            heap,
            "if cell a b,\n\nthen row a b",
            3,
            1,
            "expected `same`, `other`, `cell` or `row`, found `then`",
        )?;
        fails(
            &rt,
            heap,
            "if then nothing",
            1,
            4,
            "expected `same`, `other`, `cell`, `row` or `nothing`, found `then`",
        )?;
        fails(&rt, heap, "if flûte a b", 1, 4, "`flûte` is no word")?;
        fails(
            &rt,
            heap,
            "if cell flûte 1 2",
            1,
            17,
            "expected `,` or a new line after `cell flûte 1`, found `2`",
        )
    }

    #[test]
    fn ends(rt: HostRuntime) -> Result<(), Fail> {
        let heap = rt.alloc();
        fails(
            &rt,
            heap,
            "if cell a b\n\n",
            1,
            12,
            "expected `then`, found the end of the text",
        )?;
        fails(
            &rt,
            heap,
            "if nothing, cell a b",
            1,
            13,
            "`nothing` stands alone",
        )?;
        fails(
            &rt,
            heap,
            "if nothing then nothing then",
            1,
            25,
            "expected another part or the next question, found `then`",
        )?;
        fails(
            &rt,
            heap,
            "if cell a \u{7} then",
            1,
            11,
            "expected a name after `cell a`, found a control character",
        )?;
        fails(
            &rt,
            heap,
            "then cell a b",
            1,
            1,
            "expected `if`, or a question on one line",
        )
    }

    #[test]
    fn line_form(rt: HostRuntime) -> Result<(), Fail> {
        let heap = rt.alloc();
        fails(
            &rt,
            heap,
            "a = b",
            1,
            6,
            "expected `*` or `|-` after `a = b`, found the end of the text",
        )?;
        fails(
            &rt,
            heap,
            "a |-> |- emp",
            1,
            7,
            "expected a name after `a |->`, found `|-`",
        )?;
        fails(
            &rt,
            heap,
            "emp |- ls(a, b) c",
            1,
            17,
            "expected `*` or the end of the line after `ls(a, b)`, found `c`",
        )?;
        fails(
            &rt,
            heap,
            "row = a |- emp",
            1,
            1,
            "expected a name, found `row`, which is a word of the notation",
        )?;
        fails(
            &rt,
            heap,
            "a ! b |- emp",
            1,
            3,
            "expected `=`, `!=` or `|->` after `a`, found `!`, which begins no word",
        )?;
        fails(
            &rt,
            heap,
            "|- emp",
            1,
            1,
            "expected `x = y`, `x != y`, `x |-> y`, `ls(x, y)` or `emp`, found `|-`",
        )
    }

    // The normal form of the text's question reads as the same question, and has the same normal form.
    fn round(heap: Global, text: &str) -> Result<bool, AllocError> {
        let Some(first) = asked(heap, text.as_bytes())? else {
            return Ok(false);
        };
        let normal = normal_form(heap, &first)?;
        let Some(again) = asked(heap, normal.as_bytes())? else {
            return Ok(false);
        };
        let twice = normal_form(heap, &again)?;
        if normal.as_str() != twice.as_str() || first.question.names != again.question.names {
            return Ok(false);
        }
        Ok(
            first.question.first == again.question.first
                && first.question.second == again.question.second,
        )
    }

    #[test]
    fn round_trips(rt: HostRuntime) -> Result<(), Fail> {
        let heap = rt.alloc();
        assert!(rt; round(heap, "if cell x y, same y z\n row 1 0 then other x flûte")?);
        assert!(rt; round(heap, "ls(b, a) * b != a * a |-> nil |- emp * a = a'")?);
        assert!(rt; round(heap, "if nothing then nothing")?);
        assert!(rt; round(heap, "emp |- ls(a, nowhere)\r\n")?);
        Ok(())
    }

    // How many questions and errors the text has.
    fn count(heap: Global, text: &[u8]) -> Result<(usize, usize), AllocError> {
        let mut questions = 0usize;
        let mut errors = 0usize;
        if let Ok(mut reader) = Reader::new(text) {
            while let Some(next) = reader.next(heap)? {
                match next {
                    Ok(_) => questions = questions.saturating_add(1),
                    Err(_) => errors = errors.saturating_add(1),
                }
            }
        }
        Ok((questions, errors))
    }

    #[test]
    fn goes_on(rt: HostRuntime) -> Result<(), Fail> {
        let heap = rt.alloc();
        assert_eq!(rt; count(heap, b"")?, (0, 0));
        assert_eq!(rt;
            count(
                heap,
                b"if rwo if nothing then nothing\na |-> |- b\nif nothing then nothing",
            )?,
            (2, 2)
        );
        assert_eq!(rt;
            count(
                heap,
                b"if cell a b\na |-> b |- ls(a, b)\nif cell a b then cell a b\na = b |- emp",
            )?,
            (3, 1)
        );
        assert_eq!(rt;
            count(heap, b"a = if\nb\nif\n# if |-\n a = b |- emp")?,
            (1, 2)
        );
        Ok(())
    }
}
