//! Laws of verdicts. The contract of each function is the law.

ghost use Rattle.area_certify.specs.Laws.{FirstWrongLineIsOne, TextsHaveAVerdict, VerdictsExclude};
ghost use Rattle.area_certify.specs.RightTexts.{RightTextsAreFeatures, RightTextsExist};

use osm_area::{has_area_exactly, outcome_exists, outcome_is_one};

/// A text has at most one first wrong line.
pub fn first_wrong_line_is_one()
    ensures { FirstWrongLineIsOne }
{}

/// A text has a first wrong line, or it has none.
pub fn texts_have_a_verdict()
    ensures { TextsHaveAVerdict }
{
    outcome_exists();
    has_area_exactly();
    outcome_is_one();
}

/// No text both has a first wrong line and has none.
pub fn verdicts_exclude()
    ensures { VerdictsExclude }
{}

/// The texts without a wrong line are the features of the candidates with an area, one after the other.
pub fn right_texts_are_features()
    ensures { RightTextsAreFeatures }
{}

/// For all objects and settings there is a text without a wrong line.
pub fn right_texts_exist()
    ensures { RightTextsExist }
{
    outcome_exists();
    has_area_exactly();
}
