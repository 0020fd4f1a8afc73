ghost use Rattle.std.specs.Prelude.{◌≡◌, length, IfOk};

use pair_io::*;
use std::alloc::{AllocError, Global};
use std::fs;
use std::io::Cursor;
use std::test::Fail;

fn list(alloc: Global, first: &[u8], second: &[u8]) -> Result<Vec<Vec<u8>>, AllocError>
    ensures { IfOk result (λ all. length all.items ≡ 2) }
{
    Ok(vec![in alloc; first.to_vec(alloc)?, second.to_vec(alloc)?]?)
}

/// One read, through the bound.
fn read_from<F: Files>(
    alloc: Global,
    files: &mut F,
    name: &[u8],
    limit: u64,
) -> (Result<(), FilesError>, Vec<u8>) {
    let mut into = Vec::new(alloc);
    let answer = files.read(name, limit, &mut into);
    (answer, into)
}

#[test]
fn memory_answers_each_case(rt: HostRuntime) -> Result<(), Fail> {
    let alloc = rt.alloc();
    let names = list(alloc, b"a", b"a")?;
    let contents = list(alloc, b"first", b"second")?;
    let failing = vec![in alloc; 4u64]?;
    let mut files = MemFiles::new(alloc, names, contents, failing)?;
    let cases: [(&[u8], u64, Result<(), FilesError>, &[u8]); 5] = [
        (b"a", 5, Ok(()), b"first"),
        (b"a", 4, Err(FilesError::TooLong), b"first"),
        (b"a", 1, Err(FilesError::TooLong), b"fi"),
        (b"b", 5, Err(FilesError::Failed), b""),
        (b"a", 5, Err(FilesError::Failed), b""),
    ];
    for (name, limit, answer, bytes) in cases {
        let (found, into) = read_from(alloc, &mut files, name, limit);
        assert_eq!(rt; found, answer);
        assert_eq!(rt; into.as_slice(), bytes);
    }
    let mut sink = MemSink::new(alloc, 5, vec![in alloc; 1u64]?)?;
    assert_eq!(rt; sink.write(b"abc"), Ok(()));
    assert_eq!(rt; sink.write(b"de"), Err(Failed));
    assert_eq!(rt; sink.write(b"def"), Err(Failed));
    assert_eq!(rt; sink.written(), b"abcde".as_slice());
    Ok(())
}

/// Every name has the same bytes.
#[derive(Drop)]
struct OneContent {
    bytes: Vec<u8>,
    alloc: Global,
}

impl Opener for OneContent {
    ghost use Rattle.std.specs.Prelude.{Some};

    type File = Cursor<Vec<u8>>;

    ghost content = { λ o _. Some o.bytes.items };

    fn open(&self, _name: &[u8]) -> Result<Cursor<Vec<u8>>, Failed> {
        match self.bytes.to_vec(self.alloc) {
            Ok(bytes) => Ok(Cursor::new(bytes)),
            Err(_) => Err(Failed),
        }
    }
}

#[test]
fn real_files_answer_each_case(rt: HostRuntime) -> Result<(), Fail> {
    let alloc = rt.alloc();
    fs::write(&rt, "a.txt", "first")?;
    let mut files = RealFiles::new(StdOpener::new(&rt));
    let cases: [(&[u8], u64, Result<(), FilesError>, &[u8]); 5] = [
        (b"a.txt", 5, Ok(()), b"first"),
        (b"a.txt", u64::MAX, Ok(()), b"first"),
        (b"a.txt", 4, Err(FilesError::TooLong), b"first"),
        (b"b.txt", 5, Err(FilesError::Failed), b""),
        (b"\xff", 5, Err(FilesError::Failed), b""),
    ];
    for (name, limit, answer, bytes) in cases {
        let (found, into) = read_from(alloc, &mut files, name, limit);
        assert_eq!(rt; found, answer);
        assert_eq!(rt; into.as_slice(), bytes);
    }
    let long = vec![in alloc; 7u8; 10_000]?;
    let bytes = long.to_vec(alloc)?;
    let mut told = RealFiles::new(OneContent { bytes, alloc });
    let (answer, into) = read_from(alloc, &mut told, b"a", 10_000);
    assert_eq!(rt; answer, Ok(()));
    assert_eq!(rt; into.as_slice(), long.as_slice());
    let (answer, into) = read_from(alloc, &mut told, b"a", 9_999);
    assert_eq!(rt; answer, Err(FilesError::TooLong));
    assert_eq!(rt; into.len(), 10_000);
    Ok(())
}

#[test]
fn a_writer_that_is_full_is_a_fault(rt: HostRuntime) {
    let mut room = [0u8; 4];
    let mut sink = RealSink::new(room.as_mut_slice());
    assert_eq!(rt; sink.write(b"abc"), Ok(()));
    assert_eq!(rt; sink.write(b"def"), Err(Failed));
    assert_eq!(rt; sink.write(b""), Ok(()));
    assert_eq!(rt; room.as_slice(), b"abcd".as_slice());
}
