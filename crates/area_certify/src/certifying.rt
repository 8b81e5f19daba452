//! The certifier.

ghost use Rattle.std.specs.Prelude.{◌≡◌, ◌↔◌, ℕ, All, IfOk, IsSome};
ghost use Rattle.osm_objects.specs.Objects.{object_at};
ghost use Rattle.area_certify.specs.FirstWrong.{HasNoWrongLine, IsFirstWrongLine};
ghost use Rattle.area_certify.specs.Lines.{text_lines};
ghost use Rattle.area_certify.specs.Telling.{IsVerdict};
ghost use Rattle.area_certify.specs.declared.verdict.Verdict.TheVariants.{Yes, No};

use crate::laws::{first_wrong_line_is_one, verdicts_exclude};
use crate::telling::{Told, tell};
use crate::verdict::Verdict;
use osm_area::{has_area_exactly, outcome_exists};
use osm_elements::ObjectRef;
use osm_objects::{Choice, Store, UniqueId};
use std::alloc::{AllocError as OutOfMemory, Global};

/// Compares the lines of a text with the features of these candidates, those with an area, in order.
fn compare(
    alloc: Global,
    store: &Store,
    ids: Option<UniqueId>,
    candidates: &[ObjectRef],
    text: &[u8],
) -> Result<Verdict, OutOfMemory>
    requires held { All (λ of. IsSome (object_at store.now of)) candidates.now }
    ensures { IfOk result (IsVerdict ids store.now candidates.now (text_lines text.now)) }
{
    // By law: each candidate has an area or none.
    outcome_exists();
    has_area_exactly();
    let mut rest = text;
    let mut right: u64 = 0;
    for &candidate in candidates {
        match tell(alloc, store, ids, right + 1, candidate, rest)? {
            Told::NoArea => {}
            Told::Right { rest: left } => {
                rest = left;
                right += 1;
            }
            Told::Wrong => return Ok(Verdict::No { line: right + 1 }),
        }
    }
    if rest.is_empty() {
        Ok(Verdict::Yes)
    } else {
        Ok(Verdict::No { line: right + 1 })
    }
}

/// Whether a text is right: whether its lines are the features in format text of the candidates with an area, in order.
///
/// The candidates are those that the choice takes among the objects of the store. `Yes` comes exactly if all lines are
/// right and none is missing. `No` comes exactly with the number of the first wrong line, counted from 1. That is the
/// first line that isn't right, or the one after the last, if a line is missing there. A last line without LF isn't
/// right.
///
/// No line is copied, and one feature is held at a time. Fails only if memory runs out.
pub fn certify(
    alloc: Global,
    store: &Store,
    choice: &Choice,
    ids: Option<UniqueId>,
    text: &[u8],
) -> Result<Verdict, OutOfMemory>
    ensures yes { IfOk result (λ v. v ≡ Yes ↔ HasNoWrongLine choice.now ids store.now text.now) }
    ensures no { IfOk result (λ v. (line : ℕ)
        → (v ≡ No line) ↔ IsFirstWrongLine choice.now ids store.now text.now line) }
{
    // By law: a text has one verdict.
    first_wrong_line_is_one();
    verdicts_exclude();
    let candidates = store.candidates(alloc, choice)?;
    compare(alloc, store, ids, &candidates, text)
}
