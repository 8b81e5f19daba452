//! What is noted of a candidate.

ghost use Rattle.std.specs.Prelude.{◌≡◌, ◌++◌, ℤ, OnOk, IfOk, map, filter, nat_le, count_by};
ghost use Rattle.std.specs.List.Sorted.{IsSorted};
ghost use Rattle.std.specs.Ordering.{int_cmp, int_eq};
ghost use Rattle.osm_area.specs.Names.{has_name};
ghost use Rattle.osm_area.specs.Notes.{named_twice_note, repeated_note};

use crate::outcome_lists::Notes;
use lists::{is_among, items_of, repeated_items};
use osm_objects::Note;
use osm_segments::Repeat;
use std::alloc::{AllocError as OutOfMemory, Global};

/// The ways that are named at least twice, in order.
fn repeated(alloc: Global, named: &[i64]) -> Result<Vec<i64>, OutOfMemory>
    ensures sorted { IfOk result (λ ways. IsSorted int_cmp ways.items) }
    ensures twice { IfOk result (λ ways. (way : ℤ)
        → has_name ways.items way ≡ nat_le 2 (count_by (int_eq way) named.now)) }
{
    let tallies = repeated_items(alloc, named)?;
    items_of(alloc, &tallies)
}

/// Adds a note for each of the ways, in order, that is among these, which are in order.
fn add_named(notes: &mut Notes, ways: &[i64], again: &[i64]) -> Result<(), OutOfMemory>
    requires { IsSorted int_cmp again.now }
    ensures { OnOk result (notes.new
        ≡ notes.old ++ map named_twice_note (filter (has_name again.now) ways.now)) }
{
    for way in ways {
        if is_among(again, way) {
            notes.push(Note::NamedTwice { way: *way })?;
        }
    }
    Ok(())
}

/// A note for each of the ways, in order, that is named at least twice.
#[tactic(auto, using(crate::proofs::RefLemmas::filter_same))]
pub fn named_twice(alloc: Global, named: &[i64], ways: &[i64]) -> Result<Notes, OutOfMemory>
    ensures { IfOk result (λ notes. notes
        ≡ map named_twice_note (filter (λ way. nat_le 2 (count_by (int_eq way) named.now)) ways.now)) }
{
    let again = repeated(alloc, named)?;
    let mut notes = Notes::new(alloc);
    add_named(&mut notes, ways, &again)?;
    Ok(notes)
}

/// Adds a note for each segment that stands at least twice.
pub fn add_repeats(notes: &mut Notes, repeats: &[Repeat]) -> Result<(), OutOfMemory>
    ensures { OnOk result (notes.new ≡ notes.old ++ map repeated_note repeats.now) }
{
    for repeat in repeats {
        notes.push(Note::Repeated {
            seg: repeat.seg,
            times: repeat.times,
        })?;
    }
    Ok(())
}
