use ctw_io::{DirShelf, Fault, Loaded, OutSink, Shelf, Sink, SureShelf, send};
use std::alloc::{AllocError, Global};
use std::fs;

/// What a load answered, in a word; the content `abc` is its own.
fn word_of(answer: Result<Loaded, Fault>) -> &'static str {
    match answer {
        Ok(Loaded::Whole(bytes)) if bytes.as_slice() == b"abc".as_slice() => "abc",
        Ok(Loaded::Whole(_)) => "other bytes",
        Ok(Loaded::More) => "more",
        Ok(Loaded::Missing) => "missing",
        Err(Fault::Failed) => "failed",
        Err(Fault::NoMemory) => "no memory",
    }
}

#[test]
fn a_directory_is_a_shelf(rt: HostRuntime) {
    let mut shelf = DirShelf::new(&rt);
    for (name, content) in [
        ("three", b"old content".as_slice()),
        ("three", b"abc"),
        ("none", b""),
    ] {
        assert!(rt; shelf.save(name, content) == Ok(()));
    }
    let table = [
        ("three", 4, "abc"),
        ("three", 3, "abc"),
        ("three", 2, "more"),
        ("three", 0, "more"),
        ("three", u64::MAX, "abc"),
        ("none", 0, "other bytes"),
        ("thre", 3, "missing"),
        ("", 3, "missing"),
        (".", 9, "failed"),
        ("three/four", 9, "failed"),
    ];
    for (name, limit, want) in table {
        assert!(rt;
            word_of(shelf.load(rt.alloc(), name, limit)) == want,
            "{name} {limit}"
        );
    }
    assert!(rt; shelf.save("missing/four", b"4") == Err(Fault::Failed));
    for name in ["three", "none"] {
        assert!(rt; fs::remove_file(&rt, name).is_ok());
    }
}

#[test]
fn standard_output_is_a_sink(rt: HostRuntime) {
    let mut sink = OutSink::new(&rt);
    assert!(rt; sink.write(b"") == Ok(0));
    assert!(rt; sink.write(b"ab\n") == Ok(3));
    assert!(rt; send(&mut sink, b"cd\n") == Ok(()));
}

/// A shelf that begins with one file.
fn shelf_with(alloc: Global, name: &str, content: &[u8]) -> Result<SureShelf, AllocError> {
    let file = (String::from_str(alloc, name)?, content.to_vec(alloc)?);
    Ok(SureShelf::new(alloc, vec![in alloc; file]?))
}

#[test]
fn a_shelf_begins_with_the_files_given(rt: HostRuntime) {
    let mut shelf = shelf_with(rt.alloc(), "three", b"abc").expect(&rt, "memory");
    for (name, want) in [("three", "abc"), ("two", "missing")] {
        assert!(rt; word_of(shelf.load(rt.alloc(), name, 3)) == want, "{name}");
    }
}
