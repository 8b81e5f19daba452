//! References and tags, which are held in few bytes.

use crate::answers::{Answer, NO_MEMORY};
use osm_elements::{Ref, Refs, Tags};
use osm_lattice::Loc;
use std::alloc::Global;

/// Adds the references of lines, and says whether memory sufficed.
fn add_refs(lines: &str, refs: &mut Vec<Ref>) -> bool {
    let mut is_whole = true;
    for line in lines.lines() {
        is_whole &= refs.push(ref_of(line)).is_ok();
    }
    is_whole
}

/// The reference of a line: a node and then nothing or the x and the y of its own location.
fn ref_of(line: &str) -> Ref {
    let (node, at) = line.split_once(' ').unwrap_or((line, ""));
    Ref {
        node: node.parse().unwrap_or(i64::MAX),
        at: place_of(at),
    }
}

/// The location of two numbers, where there are two.
fn place_of(words: &str) -> Option<Loc> {
    let (x, y) = words.split_once(' ')?;
    Loc::new(x.parse().unwrap_or(i64::MAX), y.parse().unwrap_or(i64::MAX))
}

/// Adds from how many places on references stay right as they are added one by one: those from a place on, and then those before it.
pub(crate) fn put_references(alloc: Global, text: &str, told: &mut Answer) {
    let mut all = Vec::new(alloc);
    told.is_whole &= add_refs(text, &mut all);
    told.put("right from ");
    told.put_shown(&count_right(alloc, &all));
    told.put(" of ");
    told.put_shown(&all.len());
}

/// From how many places on references stay right.
fn count_right(alloc: Global, all: &[Ref]) -> u64 {
    let mut right = 0u64;
    for start in 0..all.len() {
        if is_right_from(alloc, all, start) {
            right = right.saturating_add(1);
        }
    }
    right
}

/// Whether references stay right from a place on.
fn is_right_from(alloc: Global, all: &[Ref], start: usize) -> bool {
    let mut turned = Vec::new(alloc);
    turn(all, start, &mut turned) && stay_right(alloc, &turned)
}

/// Adds the references from a place on, and then those before it. Says whether memory sufficed.
fn turn(all: &[Ref], start: usize, turned: &mut Vec<Ref>) -> bool {
    let (before, first) = all.split_at(start.min(all.len()));
    turned.extend_from_slice(first).is_ok() && turned.extend_from_slice(before).is_ok()
}

/// Whether references stay right as they are added one by one.
fn stay_right(alloc: Global, all: &[Ref]) -> bool {
    let mut refs = Refs::new(alloc);
    let mut right = true;
    for (index, reference) in all.iter().enumerate() {
        right &= refs.push(*reference).is_ok() && are(&refs, &all[..index + 1]);
    }
    right
}

/// Whether references are these, by each of the ways to ask for them.
fn are(refs: &Refs, wanted: &[Ref]) -> bool {
    let mut same = refs.len() == wanted.len() && refs.is_empty() == wanted.is_empty();
    for (index, reference) in refs.iter().enumerate() {
        same &= wanted.get(index) == Some(&reference) && refs.get(index) == Some(reference);
    }
    same && refs.first() == wanted.first().copied()
        && refs.last() == wanted.last().copied()
        && refs.get(wanted.len()).is_none()
}

/// Adds how many tags are in a copy of those of lines, and for each line behind `asked` the value of its key. The lines before
/// `asked` have keys and values.
pub(crate) fn put_values(alloc: Global, lines: &str, told: &mut Answer) {
    let mut tags = Tags::new(alloc);
    told.is_whole &= add_tags(lines, &mut tags);
    match tags.copy(alloc) {
        Ok(copy) => put_asked(&copy, lines, told),
        Err(_) => told.put(NO_MEMORY),
    }
}

/// Adds the tags of lines, and says whether memory sufficed.
fn add_tags(lines: &str, tags: &mut Tags) -> bool {
    let mut is_whole = true;
    for line in lines.lines() {
        if let Some((key, value)) = line.split_once('=') {
            is_whole &= tags.push(key, value).is_ok();
        }
    }
    is_whole
}

/// Adds how many tags there are, and for each line behind `asked` the value of its key.
fn put_asked(tags: &Tags, lines: &str, told: &mut Answer) {
    told.put_shown(&tags.len());
    told.put(" tags\n");
    let (_, keys) = lines.split_once("asked\n").unwrap_or((lines, ""));
    for key in keys.lines() {
        told.put(tags.value_of(key).unwrap_or("none"));
        told.put("\n");
    }
}

/// Adds how many bytes a text takes as a key and as a value. It has to be lent as it was given.
pub(crate) fn put_bytes(alloc: Global, text: &str, told: &mut Answer) {
    let mut tags = Tags::new(alloc);
    if !add_twice(text, &mut tags) || !is_lent(&tags, text) {
        return told.put("a text that isn't lent");
    }
    // `outer` and `name` take a byte each.
    let twice = tags.bytes().saturating_sub(2);
    told.put_shown(&(twice / 2));
    told.put(" and ");
    told.put_shown(&(twice - twice / 2));
}

/// Adds a text as a key and as a value, and says whether memory sufficed.
fn add_twice(text: &str, tags: &mut Tags) -> bool {
    tags.push(text, "outer").is_ok() && tags.push("name", text).is_ok()
}

/// Whether a text is lent as a key and as a value.
fn is_lent(tags: &Tags, text: &str) -> bool {
    tags.value_of(text) == Some("outer") && (text == "name" || tags.value_of("name") == Some(text))
}
