//! What a candidate adds to the output and to the report.

ghost use Rattle.std.specs.Prelude.{◌≡◌, IfOk, IfSome, IsSome, OnErr, OnOk, [], ◌++◌, ◌+◌, ◌≤◌, false, true};
ghost use Rattle.job_export.specs.Entries.{IsAdditionOf};
ghost use Rattle.job_export.specs.Reports.{IsReportOf};
ghost use Rattle.job_export.specs.Entry.{feature_in};
ghost use Rattle.osm_area.specs.Feature.{feature_tags};
ghost use Rattle.osm_elements.specs.declared.object.ObjectRef.{ObjectRef};
ghost use Rattle.job_export.specs.Framing.{framed};
ghost use Rattle.osm_notation.specs.Kept.{KeepsFront};
ghost use Rattle.osm_objects.specs.Objects.{object_at};
ghost use Rattle.osm_text.specs.Id.{feature_id};
ghost use Rattle.osm_words.specs.Answers.{settings_seen};

use crate::framing::{after_feature, before_feature};
use crate::report::Report;
use osm_area::{Outcome, area_of, assemble};
use osm_elements::{ObjectKind, ObjectRef, Tags};
use osm_nest::Polygons;
use osm_objects::Store;
use osm_text::{FeatureId, put_feature_json, put_feature_text};
use osm_words::{ExportSettings, Format};
use std::alloc::{AllocError as OutOfMemory, Global};

/// What a candidate adds besides its feature.
#[derive(Drop)]
pub(crate) struct Addition {
    /// Whether it has a feature; false if it has problems.
    pub has_feature: bool,
    /// What is reported of it; nothing if report lines aren't asked for.
    pub report: Report,
}

impl Addition {
    /// Whether it adds only a feature, which may wait for the next ones.
    pub(crate) fn is_feature_alone(&self) -> bool
        ensures feature { result ≡ true → self.now.has_feature ≡ true }
        ensures alone { result ≡ true → (of : ObjectRef) → IsReportOf of self.now.report [] }
    {
        self.has_feature && self.report.is_empty()
    }
}

/// Adds the feature of an area in a format. If memory runs out, what was there before stays in front.
fn put_feature(
    alloc: Global,
    text: &mut Vec<u8>,
    format: Format,
    polygons: &Polygons,
    tags: &Tags,
    id: Option<FeatureId>,
) -> Result<(), OutOfMemory>
    ensures text { OnOk result (text.new.items
        ≡ text.old.items ++ feature_in format id polygons.now tags.now) }
    ensures kept { OnErr result (KeepsFront text.old.items text.new.items) }
{
    match format {
        Format::Text => put_feature_text(text, polygons, tags, id),
        Format::GeoJson | Format::GeoJsonSeq => put_feature_json(alloc, text, polygons, tags, id),
    }
}

/// The tags of a candidate that is a way, lent.
fn lent_tags<'a>(store: &'a Store, candidate: ObjectRef) -> Option<&'a Tags>
    ensures { IfSome result (λ tags. tags.now ≡ feature_tags (object_at store.now candidate)) }
{
    match candidate.kind {
        ObjectKind::Way => match store.way(candidate.id) {
            Some(way) => Some(way.tags),
            None => None,
        },
        ObjectKind::Node | ObjectKind::Relation => None,
    }
}

/// Adds the feature of a candidate's area. If memory runs out, what was there before stays in front.
fn put_feature_of(
    alloc: Global,
    text: &mut Vec<u8>,
    store: &Store,
    format: Format,
    candidate: ObjectRef,
    polygons: &Polygons,
    id: Option<FeatureId>,
) -> Result<(), OutOfMemory>
    requires { IsSome (object_at store.now candidate) }
    ensures text { OnOk result (text.new.items ≡ text.old.items
        ++ feature_in format id polygons.now (feature_tags (object_at store.now candidate))) }
    ensures kept { OnErr result (KeepsFront text.old.items text.new.items) }
{
    if let Some(tags) = lent_tags(store, candidate) {
        return put_feature(alloc, text, format, polygons, tags, id);
    }
    let tags = store.area_tags(alloc, candidate)?;
    put_feature(alloc, text, format, polygons, &tags, id)
}

/// Adds the feature of a candidate's area, the one after `earlier` features, with the text around it.
///
/// If memory runs out, what was there before stays in front.
fn put_framed(
    alloc: Global,
    text: &mut Vec<u8>,
    store: &Store,
    settings: &ExportSettings<'_>,
    candidate: ObjectRef,
    polygons: &Polygons,
    earlier: u64,
) -> Result<(), OutOfMemory>
    requires held { IsSome (object_at store.now candidate) }
    requires room { earlier + 1 ≤ 18_446_744_073_709_551_615 }
    ensures text { OnOk result (text.new.items ≡ text.old.items
        ++ framed (settings_seen settings.now) earlier
        (feature_in settings.now.format (feature_id settings.now.ids (earlier + 1) candidate)
        polygons.now (feature_tags (object_at store.now candidate)))) }
    ensures kept { OnErr result (KeepsFront text.old.items text.new.items) }
{
    let id = FeatureId::of(settings.ids, earlier + 1, candidate);
    let before = before_feature(settings.format, settings.omit_rs, earlier);
    text.extend_from_slice(before.as_bytes())?;
    put_feature_of(alloc, text, store, settings.format, candidate, polygons, id)?;
    text.extend_from_slice(after_feature(settings.format).as_bytes())?;
    Ok(())
}

/// Adds the feature of a candidate's area, with the text around it, to those that wait.
/// If memory runs out, the same features wait as before.
fn add_feature(
    alloc: Global,
    waiting: &mut Vec<u8>,
    store: &Store,
    settings: &ExportSettings<'_>,
    candidate: ObjectRef,
    polygons: &Polygons,
    earlier: u64,
) -> Result<(), OutOfMemory>
    requires held { IsSome (object_at store.now candidate) }
    requires room { earlier + 1 ≤ 18_446_744_073_709_551_615 }
    ensures added { OnOk result (waiting.new.items ≡ waiting.old.items
        ++ framed (settings_seen settings.now) earlier
        (feature_in settings.now.format (feature_id settings.now.ids (earlier + 1) candidate)
        polygons.now (feature_tags (object_at store.now candidate)))) }
    ensures kept { OnErr result (waiting.new.items ≡ waiting.old.items) }
{
    let before = waiting.len();
    match put_framed(
        alloc, waiting, store, settings, candidate, polygons, earlier,
    ) {
        Ok(()) => Ok(()),
        Err(error) => {
            waiting.truncate(before);
            Err(error)
        }
    }
}

/// Adds the feature of a candidate whose report lines aren't asked for, and gives what else the candidate adds.
/// It lists no problem.
fn feature_of(
    alloc: Global,
    waiting: &mut Vec<u8>,
    store: &Store,
    settings: &ExportSettings<'_>,
    candidate: ObjectRef,
    earlier: u64,
) -> Result<Addition, OutOfMemory>
    requires held { IsSome (object_at store.now candidate) }
    requires room { earlier + 1 ≤ 18_446_744_073_709_551_615 }
    requires silent { settings.now.show_errors ≡ false }
    ensures added { IfOk result (IsAdditionOf (settings_seen settings.now) store.now earlier
        candidate waiting.old.items waiting.new.items) }
    ensures kept { OnErr result (waiting.new.items ≡ waiting.old.items) }
{
    match area_of(alloc, store, candidate)? {
        Some(polygons) => {
            add_feature(
                alloc, waiting, store, settings, candidate, &polygons, earlier,
            )?;
            Ok(Addition {
                has_feature: true,
                report: Report::nothing(alloc),
            })
        }
        None => Ok(Addition {
            has_feature: false,
            report: Report::nothing(alloc),
        }),
    }
}

/// Adds the feature of a candidate whose report lines are asked for, and gives what else the candidate adds.
fn feature_and_report_of(
    alloc: Global,
    waiting: &mut Vec<u8>,
    store: &Store,
    settings: &ExportSettings<'_>,
    candidate: ObjectRef,
    earlier: u64,
) -> Result<Addition, OutOfMemory>
    requires held { IsSome (object_at store.now candidate) }
    requires room { earlier + 1 ≤ 18_446_744_073_709_551_615 }
    requires shown { settings.now.show_errors ≡ true }
    ensures added { IfOk result (IsAdditionOf (settings_seen settings.now) store.now earlier
        candidate waiting.old.items waiting.new.items) }
    ensures kept { OnErr result (waiting.new.items ≡ waiting.old.items) }
{
    match assemble(alloc, store, candidate)? {
        Outcome::Area { polygons, notes } => {
            add_feature(
                alloc, waiting, store, settings, candidate, &polygons, earlier,
            )?;
            let problems = None;
            Ok(Addition {
                has_feature: true,
                report: Report { problems, notes },
            })
        }
        Outcome::Problems { list, notes } => {
            let problems = Some(list);
            Ok(Addition {
                has_feature: false,
                report: Report { problems, notes },
            })
        }
    }
}

/// Adds the feature of a candidate, if it has one, to those that wait, and gives what else the candidate adds.
///
/// It is the feature after `earlier` others. If memory runs out, the same features wait as before.
///
/// Ways: if report lines aren't asked for, the area alone; otherwise the whole outcome.
pub(crate) fn addition_of(
    alloc: Global,
    waiting: &mut Vec<u8>,
    store: &Store,
    settings: &ExportSettings<'_>,
    candidate: ObjectRef,
    earlier: u64,
) -> Result<Addition, OutOfMemory>
    requires held { IsSome (object_at store.now candidate) }
    requires room { earlier + 1 ≤ 18_446_744_073_709_551_615 }
    ensures added { IfOk result (IsAdditionOf (settings_seen settings.now) store.now earlier
        candidate waiting.old.items waiting.new.items) }
    ensures kept { OnErr result (waiting.new.items ≡ waiting.old.items) }
{
    if settings.show_errors {
        feature_and_report_of(alloc, waiting, store, settings, candidate, earlier)
    } else {
        feature_of(alloc, waiting, store, settings, candidate, earlier)
    }
}
