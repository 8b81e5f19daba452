//! A chunked list does what a plain `Vec` does.

use chunked_list::ChunkedList;
use std::alloc::Global;
use std::test::Fail;

/// The number that follows in a row of numbers without order.
fn next(random: u64) -> u64 {
    random
        .wrapping_mul(6364136223846793005)
        .wrapping_add(1442695040888963407)
}

/// Puts numbers into both lists, at places without order.
fn fill(list: &mut ChunkedList<u64>, plain: &mut Vec<u64>) -> Result<(), Fail> {
    let mut random = 1;
    for count in 0..5000u64 {
        random = next(random);
        let place = (random >> 33) as usize % (plain.len() + 1);
        list.insert(place.min(list.len()), count)?;
        plain.insert(place, count)?;
    }
    Ok(())
}

/// Takes most numbers out of both lists, at places without order; whether both give the same.
fn give_the_same(list: &mut ChunkedList<u64>, plain: &mut Vec<u64>) -> bool {
    let mut random = 7;
    let mut same = true;
    for _ in 0..4000u64 {
        random = next(random);
        let place = (random >> 33) as usize % plain.len().max(1);
        if place < list.len() && place < plain.len() {
            same &= list.remove(place) == plain.remove(place);
        }
    }
    same
}

/// Puts a number in the place of each third one.
fn set_each_third(list: &mut ChunkedList<u64>, plain: &mut [u64]) {
    for place in 0..plain.len() {
        if place % 3 == 0 && place < list.len() {
            list.set(place, 7);
            plain[place] = 7;
        }
    }
}

/// The first place at which the lists differ.
fn first_difference(list: &ChunkedList<u64>, plain: &[u64]) -> Option<usize> {
    for (place, number) in plain.iter().enumerate() {
        if place >= list.len() || list.get(place) != *number {
            return Some(place);
        }
    }
    if list.len() == plain.len() {
        None
    } else {
        Some(plain.len())
    }
}

/// A list is changed in its middle, at its ends and through chunks that are parted and dropped, and items are put in the
/// place of others; a plain `Vec` is what it has to be.
#[test]
fn a_list_in_chunks_is_a_list(rt: HostRuntime) -> Result<(), Fail> {
    let mut list = ChunkedList::new(rt.alloc());
    let mut plain: Vec<u64> = Vec::new(rt.alloc());
    fill(&mut list, &mut plain)?;
    assert_eq!(rt; first_difference(&list, &plain), None, "filled");
    assert!(rt; give_the_same(&mut list, &mut plain), "taken out");
    set_each_third(&mut list, &mut plain);
    assert_eq!(rt; first_difference(&list, &plain), None, "set");
    Ok(())
}

/// The even numbers below 6,000.
fn evens(alloc: Global) -> Result<ChunkedList<u64>, Fail> {
    let mut list = ChunkedList::new(alloc);
    for item in 0..3000u64 {
        let end = list.len();
        list.insert(end, 2 * item)?;
    }
    Ok(list)
}

/// How many numbers of a rising list are below a bound.
fn count_below(list: &mut ChunkedList<u64>, bound: u64) -> usize {
    list.partition_point(|item: &u64| *item < bound)
}

/// A bound, and how many of the even numbers are below it.
const BELOW: [(u64, usize); 8] = [
    (0, 0),
    (1, 1),
    (2, 1),
    (2047, 1024),
    (2048, 1024),
    (4097, 2049),
    (5998, 2999),
    (6000, 3000),
];

#[test]
fn a_search_in_chunks(rt: HostRuntime) -> Result<(), Fail> {
    let mut none = ChunkedList::new(rt.alloc());
    assert_eq!(rt; count_below(&mut none, 5), 0);
    let mut list = evens(rt.alloc())?;
    for &(bound, count) in &BELOW {
        assert_eq!(rt; count_below(&mut list, bound), count, "{bound}");
    }
    Ok(())
}
