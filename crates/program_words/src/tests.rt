use crate::{Asked, read_words};
use std::alloc::Global;
use std::process::Abort;
use std::test::Fail;

// What these words after the program's name ask for.
fn asked(alloc: Global, words: &[&str]) -> Result<Option<Asked>, Fail> {
    let mut list = Vec::new(alloc);
    list.push(String::from_str(alloc, "gumtree")?)?;
    for word in words {
        list.push(String::from_str(alloc, word)?)?;
    }
    Ok(read_words(alloc, &list)?)
}

#[test]
fn words_are_read(rt: HostRuntime) -> Result<(), Fail> {
    let alloc = rt.alloc();
    let least = Asked::Make { rows: 2, start: 0 };
    assert_eq!(rt; asked(alloc, &["run"])?, Some(Asked::Run));
    assert_eq!(rt; asked(alloc, &["run", "--"])?, None);
    assert_eq!(rt;
        asked(alloc, &["make", "--start=0", "--rows=2"])?,
        Some(least)
    );
    assert_eq!(rt;
        asked(alloc, &["make", "--rows", "0002", "--start", "0"])?,
        Some(least)
    );
    assert_eq!(rt;
        asked(alloc, &["make", "--rows", "2", "--rows=2", "--start", "0"])?,
        None
    );
    assert_eq!(rt;
        asked(alloc, &["make", "--rows", "4097", "--start", "0"])?,
        None
    );
    assert_eq!(rt; asked(alloc, &["--help"])?, None);
    assert_eq!(rt; asked(alloc, &[])?, None);
    Ok(())
}
