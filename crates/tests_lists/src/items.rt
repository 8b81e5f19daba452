//! Odd, distinct and repeated items of small lists.

use lists::{Tally, distinct_items, odd_items, repeated_items};
use std::alloc::Global;
use std::test::Fail;

/// Whether these are the odd and the distinct items of a list.
fn are_told(alloc: Global, items: &[i64], odd: &[i64], distinct: &[i64]) -> Result<bool, Fail> {
    let found = odd_items(alloc, items)?;
    Ok(found.as_slice() == odd && distinct_items(alloc, items)?.as_slice() == distinct)
}

#[test]
fn odd_and_distinct_items(rt: HostRuntime) -> Result<(), Fail> {
    let rows: [(&[i64], &[i64], &[i64]); 6] = [
        (&[], &[], &[]),
        (&[7], &[7], &[7]),
        (&[7, 7], &[], &[7]),
        (&[7, 7, 7], &[7], &[7]),
        (&[3, -1, 3, 2, 3, 3, 2, -1, 2, 3], &[2, 3], &[-1, 2, 3]),
        (&[5, 4, 3, 4, 5], &[3], &[3, 4, 5]),
    ];
    for (items, odd, distinct) in rows {
        assert!(rt; are_told(rt.alloc(), items, odd, distinct)?, "of {items:?}");
    }
    Ok(())
}

#[test]
fn repeated_items_with_their_numbers(rt: HostRuntime) -> Result<(), Fail> {
    let items = [3u32, 9, 3, 2, 3, 3, 2, 8];
    let tallies = [Tally { item: 2, times: 2 }, Tally { item: 3, times: 4 }];
    let found = repeated_items(rt.alloc(), &items)?;
    assert_eq!(rt; found.as_slice(), tallies.as_slice());
    Ok(())
}
