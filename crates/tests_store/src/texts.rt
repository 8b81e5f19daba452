//! An input that is read as one text: its end, its limit, and a failed read at each place.

use osm_host::Host;
use osm_input::{TextError, read_text};
use std::alloc::{AllocError as OutOfMemory, Global};
use std::test::Fail;
use tests_host::MemoryHost;

/// So many bytes, not all alike.
fn bytes_of(alloc: Global, count: usize) -> Result<Vec<u8>, OutOfMemory> {
    let mut bytes = Vec::new(alloc);
    for index in 0..count {
        bytes.push((index % 251) as u8)?;
    }
    Ok(bytes)
}

/// A host whose input has these bytes, and whose call of this number fails: the first read is the second call.
fn host_of(alloc: Global, bytes: &[u8], most: usize, fail: u64) -> Result<MemoryHost, OutOfMemory> {
    // Each `most` below is at least 1, which the check can't read off a table.
    let mut host = MemoryHost::new(alloc, most.max(1));
    host.add_input("text", bytes)?;
    host.fail_at(fail)?;
    host.reserve(9)?;
    Ok(host)
}

/// The text of the input; a read fault also where it isn't opened.
fn text_of(alloc: Global, host: &mut MemoryHost, limit: u32) -> Result<Vec<u8>, TextError> {
    let Ok(()) = host.open_input("text") else {
        return Err(TextError::ReadFault);
    };
    read_text(alloc, host, u64::from(limit))
}

/// The count of bytes, the most of a read, the limit, and whether they keep it.
const LIMITS: [(usize, usize, u32, bool); 11] = [
    (0, 9, 0, true),
    (0, 9, 7, true),
    (5, 9, 7, true),
    (5, 2, 5, true),
    (5, 9, 5, true),
    (5, 2, 4, false),
    (5, 9, 4, false),
    (5, 9, 0, false),
    (131_073, 200_000, 131_073, true),
    (131_073, 200_000, 131_072, false),
    (131_073, 40_000, 131_073, true),
];

#[test]
fn a_text_is_read_within_its_limit(rt: HostRuntime) -> Result<(), Fail> {
    for &(count, most, limit, keeps) in &LIMITS {
        let bytes = bytes_of(rt.alloc(), count)?;
        let mut host = host_of(rt.alloc(), &bytes, most, 0)?;
        match text_of(rt.alloc(), &mut host, limit) {
            Ok(text) => assert!(rt; keeps && text == bytes, "{count} bytes, limit {limit}"),
            Err(error) => {
                assert!(rt; !keeps, "{count} bytes, limit {limit}");
                let limit = u64::from(limit);
                assert_eq!(rt; error, TextError::TooMuchInput { limit });
            }
        }
        assert_eq!(rt; host.faults().reads, 0);
    }
    Ok(())
}

#[test]
fn a_failed_read_ends_the_reading_of_a_text(rt: HostRuntime) -> Result<(), Fail> {
    // five bytes, two at a time: the fourth read shows the end
    let bytes = bytes_of(rt.alloc(), 5)?;
    for fail in 2..7 {
        let mut host = host_of(rt.alloc(), &bytes, 2, fail)?;
        match text_of(rt.alloc(), &mut host, 5) {
            Ok(text) => assert!(rt; fail == 6 && text == bytes, "call {fail}"),
            Err(error) => { assert!(rt; fail < 6 && error == TextError::ReadFault, "call {fail}") }
        }
        assert_eq!(rt;
            host.faults().reads,
            if fail < 6 { 1 } else { 0 },
            "call {fail}"
        );
    }
    Ok(())
}
