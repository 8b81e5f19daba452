//! The certifying job: whether a text is what an export in format text writes over an input, whoever made it.
//!
//! How it must end is a definition over the objects of the input and the text (specs/Certify). It ends as done if the text
//! has no wrong line, and otherwise as refuted, with the first one. It opens no output and writes nothing.

mod laws;
mod work;

pub use laws::{certified_texts_are_exports, certify_exists, certify_is_one};
pub use work::certify_text;
