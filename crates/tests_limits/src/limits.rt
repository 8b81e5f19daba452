//! The limits of reading: the most bytes of an input, and those of a line.

use opl_reader::{FaultKind, LineFault};
use osm_elements::ObjectKind;
use osm_host::Host;
use osm_input::{InputFault, ReadError, read_all};
use std::alloc::{AllocError as OutOfMemory, Global};
use std::test::Fail;
use tests_host::MemoryHost;

/// A host that holds an input, where the call of this number fails.
fn host_of(alloc: Global, input: &str, fail: u64) -> Result<MemoryHost, OutOfMemory> {
    let mut host = MemoryHost::new(alloc, 65536);
    host.add_input("-", input.as_bytes())?;
    host.reserve(65536)?;
    host.fail_at(fail)?;
    Ok(host)
}

/// Why the input isn't read; None where it is. A read fault also where it isn't opened.
fn read_error(alloc: Global, host: &mut MemoryHost, limit: u32, longest: u64) -> Option<ReadError> {
    let Ok(()) = host.open_input("-") else {
        return Some(ReadError::ReadFault);
    };
    match read_all(alloc, host, u64::from(limit), longest) {
        Ok(_) => None,
        Err(error) => Some(error),
    }
}

/// The bad place of an input.
fn bad(line: u64, fault: InputFault) -> Option<ReadError> {
    Some(ReadError::BadInput { line, fault })
}

/// More bytes than the limit.
fn too_much(limit: u64) -> Option<ReadError> {
    Some(ReadError::TooMuchInput { limit })
}

/// A read that fails behind a bad line doesn't hide it; the unfinished line isn't read.
#[test]
fn limits_are_met_exactly(rt: HostRuntime) -> Result<(), Fail> {
    let alloc = rt.alloc();
    let kind = ObjectKind::Node;
    let again = InputFault::Duplicate { kind, id: 1 };
    let long = InputFault::TooLong;
    let unknown = InputFault::Line(LineFault {
        kind: FaultKind::UnknownObject,
        place: 0,
    });
    let cases = [
        ("# 345678901234567890\n", 20, 100, 0, too_much(20)),
        ("# 345678901234567890\n", 21, 100, 0, None),
        ("n1 x0 y0\n", 100, 8, 0, None),
        ("n1 x0 y00\n", 100, 8, 0, bad(1, long)),
        ("n1\nn1\nx", 100, 8, 0, bad(2, again)),
        ("n1\nn1\n", 3, 8, 0, too_much(3)),
        // only lines within the limit are read, and they before it is passed
        ("n1\nx1\n", 3, 8, 0, too_much(3)),
        ("n1\nx1\nn2\n", 6, 8, 0, bad(2, unknown)),
        ("n1\nxxxxxxxx", 8, 8, 0, too_much(8)),
        ("n1\nxxxxxxxxxx\n", 12, 8, 0, bad(2, long)),
        ("n1\nn1\n", 6, 8, 3, bad(2, again)),
        ("n1\nx", 6, 8, 3, Some(ReadError::ReadFault)),
        ("n1\nxxxxxxxxx", 100, 8, 3, bad(2, long)),
    ];
    for (input, limit, longest, fail, want) in cases {
        let mut host = host_of(alloc, input, fail)?;
        let error = read_error(alloc, &mut host, limit, longest);
        assert_eq!(rt; error, want, "{input}");
    }
    Ok(())
}
