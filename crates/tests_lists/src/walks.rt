//! Orbits and pieces of small maps and walks.

use orbits::{cut, cycles, orbits};
use std::alloc::{AllocError as OutOfMemory, Global};
use std::test::*;

/// Lists as words, parted by bars.
fn told(alloc: Global, lists: &[Vec<usize>]) -> Result<String, Fail> {
    let mut told = String::new(alloc);
    for list in lists {
        told.push_str("|")?;
        for item in list {
            told.push_str(format!(in alloc; " {item}")?.as_str())?;
        }
    }
    Ok(told)
}

#[test]
fn chains_and_cycles(rt: HostRuntime) -> Result<(), Fail> {
    // 4 -> 0 -> 2 is open, 5 -> 3 -> 1 -> 5 is closed, 6 stands alone and 7 goes on to itself.
    let next = [
        Some(2),
        Some(5),
        None,
        Some(1),
        Some(0),
        Some(3),
        None,
        Some(7),
    ];
    let found = orbits(rt.alloc(), &next)?;
    assert_eq!(rt; told(rt.alloc(), &found)?.as_str(), "| 1 5 3| 4 0 2| 6| 7");
    Ok(())
}

#[test]
fn cycles_alone(rt: HostRuntime) -> Result<(), OutOfMemory> {
    // 0 -> 3 -> 6 -> 0, 1 -> 5 -> 1 and 2 -> 7 -> 4 -> 2 by turns, and 8 goes on to itself.
    let next = [3, 5, 7, 6, 2, 1, 0, 4, 8];
    let found = cycles(rt.alloc(), &next)?;
    let places = [0, 3, 6, 1, 5, 2, 7, 4, 8];
    assert_eq!(rt; found.places.as_slice(), places.as_slice());
    assert_eq!(rt; found.sizes.as_slice(), [3, 2, 3, 1].as_slice());
    let none = cycles(rt.alloc(), &[])?;
    assert!(rt; none.places.is_empty() && none.sizes.is_empty());
    Ok(())
}

#[test]
fn loops_within_loops(rt: HostRuntime) -> Result<(), Fail> {
    // The items leave the keys P Q R Q S P T.
    let keys = [2, 1, 0, 4, 3];
    let walk = [2, 1, 0, 1, 4, 2, 3];
    let mut depths = [9; 5];
    let pieces = cut(rt.alloc(), &walk, &keys, &mut depths)?;
    assert_eq!(rt; told(rt.alloc(), &pieces)?.as_str(), "| 1 0| 2 1 4| 2 3");
    Ok(())
}
