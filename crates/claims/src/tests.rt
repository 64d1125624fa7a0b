// The limits of a question at their edges, and words that are none.
use crate::layouts::read;
use std::alloc::{AllocError, Global};
use std::test::Fail;

// A question's words: `pures` times "the last name is other than nowhere", and `atoms` rows to nowhere.
fn words(heap: Global, names: u32, pures: u32, atoms: u32) -> Result<Vec<u32>, AllocError> {
    let mut out = vec![in heap; names, pures, atoms]?;
    let last = names.saturating_sub(1);
    for _ in 0..pures {
        out.extend_from_slice(&[1, last, 0])?;
    }
    for _ in 0..atoms {
        out.extend_from_slice(&[3, last, 0])?;
    }
    out.extend_from_slice(&[0, 0])?;
    Ok(out)
}

fn reads(heap: Global, names: u32, pures: u32, atoms: u32) -> Result<bool, AllocError> {
    let words = words(heap, names, pures, atoms)?;
    Ok(read(words.as_slice()).is_some())
}

#[test]
fn limits(rt: HostRuntime) -> Result<(), Fail> {
    let heap = rt.alloc();
    assert!(rt; reads(heap, 64, 256, 64)?, "all at the limit");
    assert!(rt; !reads(heap, 65, 0, 0)?, "65 names");
    assert!(rt; !reads(heap, 0, 0, 0)?, "no names");
    assert!(rt; reads(heap, 1, 0, 0)?, "nowhere alone");
    assert!(rt; !reads(heap, 64, 257, 0)?, "257 same and other");
    assert!(rt; !reads(heap, 64, 0, 65)?, "65 cells and rows");
    Ok(())
}

#[test]
fn no_questions(rt: HostRuntime) {
    assert_eq!(rt; read(&[]), None);
    assert_eq!(rt; read(&[3]), None);
    assert_eq!(rt; read(&[3, 0, 0, 0]), None);
    assert!(rt; read(&[3, 0, 0, 0, 0]).is_some());
    assert_eq!(rt; read(&[3, 0, 0, 0, 0, 0]), None, "a word left over");
    assert_eq!(rt; read(&[3, 0, 1, 3, 1, 3, 0, 0]), None, "a name too large");
    assert_eq!(rt; read(&[3, 0, 1, 4, 1, 2, 0, 0]), None, "no such kind");
    assert_eq!(rt;
        read(&[3, 0, 1, 1, 1, 2, 0, 0]),
        None,
        "an other among the cells and rows"
    );
    assert_eq!(rt;
        read(&[3, 1, 0, 2, 1, 2, 0, 0]),
        None,
        "a cell among the same and other"
    );
}
