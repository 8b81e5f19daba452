//! The work: reads the input and the text, and then judges the text.

ghost use Rattle.std.specs.Prelude.{◌≡◌, IfOk};
ghost use Rattle.job_small.specs.Certifying.Certify.{Certifies, IsCertify};
ghost use Rattle.osm_job.specs.Whole.{silent};
ghost use Rattle.osm_words.specs.Answers.{certify_seen};

use area_certify::{Verdict, certify};
use osm_host::{Host, streams_append};
use osm_job::{Ended, choice_of, read_both};
use osm_objects::Store;
use osm_words::CertifySettings;
use std::alloc::{AllocError as OutOfMemory, Global};

/// Reads the input and the text, and says whether the text is right for the objects of the input.
///
/// It ends as Done exactly if the text has no wrong line, and as Refuted exactly with the first wrong line, counted from 1.
/// It opens no output and writes nothing.
pub fn certify_text<H: Host>(alloc: Global, settings: &CertifySettings<'_>, host: &mut H) -> Ended
    ensures { Certifies (certify_seen settings.now) result (H.seen host.old) (H.seen host.new) }
{
    // By law: what is written and opened adds up in turn.
    streams_append();
    let (store, text) = match read_both(alloc, host, settings.file, settings.text) {
        Ok(both) => both,
        Err(ended) => return ended,
    };
    match judge(alloc, &store, settings, &text) {
        Ok(ended) => ended,
        Err(_) => Ended::OutOfMemory,
    }
}

/// How a job ends with this text over the objects of the store.
fn judge(
    alloc: Global,
    store: &Store,
    settings: &CertifySettings<'_>,
    text: &[u8],
) -> Result<Ended, OutOfMemory>
    ensures { IfOk result (λ ended.
        IsCertify (certify_seen settings.now) store.now text.now (silent ended)) }
{
    let choice = choice_of(
        alloc,
        settings.keep_untagged,
        settings.area_keys,
        settings.linear_keys,
    )?;
    match certify(alloc, store, &choice, settings.ids, text)? {
        Verdict::Yes => Ok(Ended::Done),
        Verdict::No { line } => Ok(Ended::Refuted { line }),
    }
}
