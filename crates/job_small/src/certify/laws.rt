//! Laws of how a certifying job ends, and of what it finds.
//!
//! Each function's contract is the law; the body calls the laws that it rests on.

ghost use Rattle.job_small.specs.Certifying.Laws.{CertifiedTextsAreExports, CertifyExists, CertifyIsOne};

use area_certify::{
    first_wrong_line_is_one, right_texts_are_features, texts_have_a_verdict, verdicts_exclude,
};
use osm_area::{has_area_exactly, outcome_exists};

/// For all settings, objects and texts there is a right ending.
pub fn certify_exists()
    ensures { CertifyExists }
{
    texts_have_a_verdict();
}

/// There is at most one right ending.
pub fn certify_is_one()
    ensures { CertifyIsOne }
{
    first_wrong_line_is_one();
    verdicts_exclude();
}

/// A text has no wrong line exactly if it is the whole output of an export in format text over the same objects.
///
/// The export has the same choice of candidates and the same ids.
pub fn certified_texts_are_exports()
    ensures { CertifiedTextsAreExports }
{
    // By law: each candidate has an area or problems, and a text without a wrong line is the features of the areas.
    outcome_exists();
    has_area_exactly();
    right_texts_are_features();
}
