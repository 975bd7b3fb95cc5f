//! The shelf over a real file, and the sink over standard output.
use gz_cli::edge::{FileShelf, StdSink};
use gz_site::{Shelf, ShelfError, Sink};
use std::alloc::Global;
use std::rt::Files;
use std::test::Fail;
use std::{env, fs, io};

/// Whether a file of the shelf that may have so many bytes has the bytes `four`.
fn has_four<R: Files>(
    shelf: &mut FileShelf<R>,
    alloc: Global,
    name: &str,
    limit: usize,
) -> Result<bool, ShelfError> {
    Ok(shelf.read(alloc, name, limit)?.as_slice() == b"four".as_slice())
}

/// The folder for files of tests.
fn folder(rt: &HostRuntime) -> Result<String, Fail> {
    let folder = env::temp_dir(rt)?;
    match folder.as_path().to_str() {
        Some(folder) => Ok(String::from_str(rt.alloc(), folder)?),
        None => Err(Fail::from("no folder")),
    }
}

/// What the shelf gives of a file: whole, where it may have fewer bytes only, and once it is gone.
fn reads(rt: &HostRuntime, path: &str) -> io::Result<[Result<bool, ShelfError>; 3]> {
    let mut shelf = FileShelf::new(rt);
    fs::write(rt, path, "four")?;
    let whole = has_four(&mut shelf, rt.alloc(), path, 4);
    let long = has_four(&mut shelf, rt.alloc(), path, 3);
    fs::remove_file(rt, path)?;
    Ok([whole, long, has_four(&mut shelf, rt.alloc(), path, 4)])
}

#[test]
fn a_real_file(rt: HostRuntime) -> Result<(), Fail> {
    let mut folder = folder(&rt)?;
    let read = has_four(&mut FileShelf::new(&rt), rt.alloc(), folder.as_str(), 4);
    assert!(rt; read == Err(ShelfError::Failed));
    folder.push_str("/giza-shelf-test")?;
    let [whole, long, gone] = reads(&rt, folder.as_str())?;
    assert!(rt; whole == Ok(true));
    assert!(rt; long == Err(ShelfError::TooLarge));
    assert!(rt; gone == Err(ShelfError::NoSuch));
    Ok(())
}

#[test]
fn standard_output(rt: HostRuntime) -> Result<(), Fail> {
    let mut out = StdSink::new(&rt);
    assert!(rt; out.write(b"out\n") == Ok(4));
    assert!(rt; out.write(b"") == Ok(0));
    assert!(rt; out.flush() == Ok(()));
    Ok(())
}
