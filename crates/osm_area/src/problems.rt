//! The problems that keep a candidate from having an area.

ghost use Rattle.std.specs.Prelude.{◌≡◌, ◌∷◌, ◌==◌, [], IfOk, length, map};
ghost use Rattle.std.specs.List.{slice_get};
ghost use Rattle.osm_lattice.specs.Seg.{seg_cmp};
ghost use Rattle.lists.specs.Rising.{IsRising};
ghost use Rattle.osm_objects.specs.declared.problem.Problem.TheVariants.{Nothing};
ghost use Rattle.osm_area.specs.Problems.{missing_problem, AreFaults};
ghost use Rattle.osm_area.specs.FaultsHeld.{AreFaultsHeld, problem_at};

use osm_elements::{ObjectKind, ObjectRef};
use osm_geom::{Loc, Seg};
use osm_objects::Problem;
use osm_segments::{Places, conflict_places, odd_nodes, pair_at};
use std::alloc::{AllocError as OutOfMemory, Global};
use std::marker::Model;

/// The problem of a missing way or node.
fn missing_problem(missing: ObjectRef) -> Problem
    ensures { result ≡ missing_problem missing }
{
    let id = missing.id;
    match missing.kind {
        ObjectKind::Way => Problem::MissingWay { id },
        ObjectKind::Node | ObjectKind::Relation => Problem::MissingNode { id },
    }
}

/// The problem of two segments, given their places. Conflicts are held only as places.
fn problem_at(segs: &[Seg], places: Places) -> Problem
    ensures { result ≡ problem_at segs.now places }
{
    match pair_at(segs, places) {
        Some(pair) => Problem::Conflict {
            kind: pair.kind,
            first: pair.first,
            second: pair.second,
        },
        None => Problem::Nothing,
    }
}

/// The faults of segments: conflicts, each by the places of its two segments, and odd nodes.
#[derive(Drop)]
struct Faults {
    segs: Vec<Seg>,
    conflicts: Vec<Places>,
    odd_nodes: Vec<Loc>,
}

impl Faults {
    ghost use Rattle.osm_area.specs.ProblemsHeld.{faults_held};

    fn len(&self) -> usize
        ensures { result ≡ length (faults_held self.now) }
    {
        self.conflicts.len() + self.odd_nodes.len()
    }

    /// The problem at a place, conflicts before odd nodes.
    fn get(&self, place: usize) -> Option<Problem>
        ensures { result ≡ slice_get (faults_held self.now) place }
    {
        let conflicts = self.conflicts.len();
        if place < conflicts {
            return Some(problem_at(&self.segs, self.conflicts[place]));
        }
        let behind = place - conflicts;
        if behind < self.odd_nodes.len() {
            return Some(Problem::Odd {
                at: self.odd_nodes[behind],
            });
        }
        None
    }
}

/// Problems as they are held.
#[derive(Drop)]
enum Held {
    Missing(Vec<ObjectRef>),
    NoSegment,
    Faulty(Faults),
}

/// The problems that keep a candidate from having an area, in order.
/// Contracts see the list of problems; a conflict takes 8 bytes.
#[derive(Drop)]
pub struct Problems {
    held: Held,
}

impl Model for Problems {
    ghost use Rattle.std.specs.Prelude.{List};
    ghost use Rattle.osm_objects.specs.declared.problem.Problem.{Problem};

    ghost Value = { List Problem };

    ghost use Rattle.osm_area.specs.ProblemsHeld.{problems_held};

    ghost view = { λ problems. problems_held problems.held };
}

impl Problems {
    /// A problem for each missing way or node.
    pub(crate) fn of_missing(parts: Vec<ObjectRef>) -> Problems
        ensures { result ≡ map missing_problem parts.items }
    {
        Problems {
            held: Held::Missing(parts),
        }
    }

    /// The problem that no segment is left.
    pub(crate) fn of_nothing() -> Problems
        ensures { result ≡ Nothing ∷ [] }
    {
        Problems {
            held: Held::NoSegment,
        }
    }

    /// How many there are.
    pub fn len(&self) -> usize
        ensures { result ≡ length self.now }
    {
        match &self.held {
            Held::Missing(parts) => parts.len(),
            Held::NoSegment => 1,
            Held::Faulty(faults) => faults.len(),
        }
    }

    /// Whether there is none.
    pub fn is_empty(&self) -> bool
        ensures { result ≡ (length self.now == 0) }
    {
        self.len() == 0
    }

    /// The problem at a place, counted from 0; None after the last.
    pub fn get(&self, place: usize) -> Option<Problem>
        ensures { result ≡ slice_get self.now place }
    {
        match &self.held {
            Held::Missing(parts) => missing_at(parts, place),
            Held::NoSegment if place == 0 => Some(Problem::Nothing),
            Held::NoSegment => None,
            Held::Faulty(faults) => faults.get(place),
        }
    }
}

/// The problem of the missing part at a place.
fn missing_at(parts: &[ObjectRef], place: usize) -> Option<Problem>
    ensures { result ≡ slice_get (map missing_problem parts.now) place }
{
    if place < parts.len() {
        return Some(missing_problem(parts[place]));
    }
    None
}

/// The places of the conflicts among segments, and their odd nodes.
fn faults_among(alloc: Global, segs: &[Seg]) -> Result<(Vec<Places>, Vec<Loc>), OutOfMemory>
    requires { IsRising seg_cmp segs.now }
    ensures { IfOk result (λ found. AreFaultsHeld segs.now found.0.items found.1.items) }
{
    let odd_nodes = odd_nodes(alloc, segs)?;
    let conflicts = conflict_places(alloc, segs)?;
    Ok((conflicts, odd_nodes))
}

/// Each conflicting pair of surviving segments in order, and then each odd node in order.
pub(crate) fn problems_of(alloc: Global, survivors: Vec<Seg>) -> Result<Problems, OutOfMemory>
    requires { IsRising seg_cmp survivors.items }
    ensures { IfOk result (λ list. AreFaults survivors.items list) }
{
    match faults_among(alloc, &survivors) {
        Ok((conflicts, odd_nodes)) => {
            let faults = Faults {
                segs: survivors,
                conflicts,
                odd_nodes,
            };
            Ok(Problems {
                held: Held::Faulty(faults),
            })
        }
        Err(error) => Err(error),
    }
}
