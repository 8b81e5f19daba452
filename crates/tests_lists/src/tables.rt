//! What each table has, row by row.

use osm_tables::coast::{ERROR, WARNING, coast_code, coast_word};
use osm_tables::{
    NOTE, PROBLEM, node_field, problem_code, problem_word, relation_field, way_field,
};
use std::test::*;

#[test]
fn letters_of_each_kind_of_object(rt: HostRuntime) {
    for (at, letter) in b"DTcdituvxy".iter().enumerate() {
        assert_eq!(rt; node_field(*letter), Some(at as u16));
    }
    let shared = (1..8u16).zip(b"Tcdituv");
    for (code, letter) in shared.chain([(10, &b'N')]) {
        assert_eq!(rt; way_field(*letter), Some(code));
    }
    let shared = (1..8u16).zip(b"Tcdituv");
    for (code, letter) in shared.chain([(11, &b'M')]) {
        assert_eq!(rt; relation_field(*letter), Some(code));
    }
    for letter in b"NMzV" {
        assert_eq!(rt; node_field(*letter), None);
    }
}

/// A kind of problem, its word and its code.
const PROBLEMS: [(u8, Option<&str>, Option<u16>); 6] = [
    (0, None, None),
    (1, Some("missing way"), Some(PROBLEM)),
    (6, Some("odd node"), Some(PROBLEM)),
    (7, Some("named twice"), Some(NOTE)),
    (10, Some("has role outer in an inner ring"), Some(NOTE)),
    (11, None, None),
];

#[test]
fn words_of_problems_and_notes(rt: HostRuntime) {
    for &(kind, word, code) in &PROBLEMS {
        assert_eq!(rt; problem_word(kind), word, "{kind}");
        assert_eq!(rt; problem_code(kind), code, "{kind}");
    }
}

/// A kind of line of a coast, and its word.
const COAST_WORDS: [(u8, Option<&str>); 6] = [
    (0, None),
    (1, Some("missing node")),
    (5, Some("is not closed, from")),
    (12, Some("vanished")),
    (13, Some("was cut from")),
    (14, None),
];

#[test]
fn words_of_coast_lines(rt: HostRuntime) {
    for &(kind, word) in &COAST_WORDS {
        assert_eq!(rt; coast_word(kind), word, "{kind}");
    }
    for kind in 0..15 {
        let code = match kind {
            1 | 5 | 6 | 7 | 8 => Some(ERROR),
            2 | 3 | 4 | 9 | 10 | 11 | 12 | 13 => Some(WARNING),
            _ => None,
        };
        assert_eq!(rt; coast_code(kind), code, "{kind}");
    }
}
