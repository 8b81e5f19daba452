//! The form of the rows: blocks of fields, each with words and a text.

use crate::answers::{Answer, NO_MEMORY};
use std::alloc::Global;

/// Each word that a field begins with.
const WORDS: [&str; 13] = [
    "text", "row", "words", "input", "taken", "most", "fails", "out", "report", "ends", "call",
    "each", "by",
];

/// A field: the word that it begins with, what it says behind that, and its text.
#[derive(Drop)]
pub(crate) struct Field<'a> {
    pub(crate) word: &'a str,
    pub(crate) said: &'a str,
    pub(crate) text: Vec<u8>,
}

/// The field of a word.
pub(crate) fn find<'f, 'a>(fields: &'f [Field<'a>], word: &str) -> Option<&'f Field<'a>> {
    for field in fields {
        if field.word == word {
            return Some(field);
        }
    }
    None
}

/// What the field of a word says, where there is one.
pub(crate) fn if_said<'a>(fields: &[Field<'a>], word: &str) -> Option<&'a str> {
    match find(fields, word) {
        Some(field) => Some(field.said),
        None => None,
    }
}

/// What the field of a word says; nothing where there is none.
pub(crate) fn said<'a>(fields: &[Field<'a>], word: &str) -> &'a str {
    match find(fields, word) {
        Some(field) => field.said,
        None => "",
    }
}

/// The text of the field of a word; empty where there is none.
pub(crate) fn text_of<'f>(fields: &'f [Field<'_>], word: &str) -> &'f [u8] {
    match find(fields, word) {
        Some(field) => field.text.as_slice(),
        None => &[],
    }
}

/// The text of a name.
pub(crate) fn find_text<'t>(texts: &'t [Field<'_>], name: &str) -> Option<&'t [u8]> {
    for text in texts {
        if first_word(text.said).0 == name {
            return Some(text.text.as_slice());
        }
    }
    None
}

/// The first of words that are parted by spaces, and the others.
pub(crate) fn first_word(words: &str) -> (&str, &str) {
    words.split_once(' ').unwrap_or((words, ""))
}

/// The number of these digits, 0 where they are none; adds that this is so.
pub(crate) fn number(digits: &str, faults: &mut Answer) -> u64 {
    match digits.parse::<u64>() {
        Ok(number) => number,
        Err(_) => {
            faults.put(" no number where one has to stand;");
            0
        }
    }
}

/// Adds a line of a block, or what is wrong with it. A line has the words of a field, and behind the first `|` a line of the last
/// field's text. One that begins with `#` is a comment.
pub(crate) fn add_line<'a>(
    alloc: Global,
    line: &'a str,
    texts: &[Field<'_>],
    fields: &mut Vec<Field<'a>>,
    faults: &mut Answer,
) {
    if line.starts_with('#') {
        return;
    }
    let (words, text) = line.split_once('|').unwrap_or((line, ""));
    add_field(alloc, words.trim(), texts, fields, faults);
    if words.len() < line.len() {
        add_to_last(text.strip_prefix(' ').unwrap_or(text), fields, faults);
    }
}

/// Adds a field of these words, where there are any, with the named texts that it calls.
fn add_field<'a>(
    alloc: Global,
    words: &'a str,
    texts: &[Field<'_>],
    fields: &mut Vec<Field<'a>>,
    faults: &mut Answer,
) {
    if words.is_empty() {
        return;
    }
    let (word, said) = first_word(words);
    put_fault(word, fields, faults);
    let text = Vec::new(alloc);
    if fields.push(Field { word, said, text }).is_err() {
        faults.put(NO_MEMORY);
    }
    add_named(texts, names_in(word, said), fields, faults);
}

/// Adds what is wrong with a field of this word: it isn't known, or stands twice. An input may stand twice.
fn put_fault(word: &str, fields: &[Field<'_>], faults: &mut Answer) {
    if !WORDS.contains(&word) {
        faults.put(" a field that isn't known;");
    }
    if word != "input" && find(fields, word).is_some() {
        faults.put(" a field twice;");
    }
}

/// The names of texts in what a field says.
fn names_in<'a>(word: &str, said: &'a str) -> &'a str {
    match word {
        "out" | "report" => said,
        "input" | "text" | "call" | "each" => first_word(said).1,
        _ => "",
    }
}

/// Adds the texts of these names to the last field.
fn add_named(texts: &[Field<'_>], names: &str, fields: &mut [Field<'_>], faults: &mut Answer) {
    for name in names.split_whitespace() {
        if !add_one_named(texts, name, fields) {
            faults.put(" a name of no text before;");
        }
    }
}

/// Adds the text of a name to the last field, and says whether there is one.
fn add_one_named(texts: &[Field<'_>], name: &str, fields: &mut [Field<'_>]) -> bool {
    match (find_text(texts, name), fields.last_mut()) {
        (Some(named), Some(field)) => field.text.extend_from_slice(named).is_ok(),
        _ => false,
    }
}

/// Adds a line to the text of the last field.
fn add_to_last(line: &str, fields: &mut [Field<'_>], faults: &mut Answer) {
    let is_added = match fields.last_mut() {
        Some(field) => add_text(line, &mut field.text),
        None => false,
    };
    if !is_added {
        faults.put(" a text before the first field, or an escape without two hex digits;");
    }
}

/// Adds a line with the byte of each escape, and its newline unless it ends in `\`. Says whether the escapes are right.
fn add_text(line: &str, text: &mut Vec<u8>) -> bool {
    let (line, end) = match line.strip_suffix('\\') {
        Some(line) => (line, ""),
        None => (line, "\n"),
    };
    let mut is_right = true;
    for (index, part) in line.split('\\').enumerate() {
        is_right &= add_part(index > 0, part, text);
    }
    is_right && text.extend_from_slice(end.as_bytes()).is_ok()
}

/// Adds a part of a line. What stands behind a `\` is two hex digits for a byte, and what stands for itself.
fn add_part(is_escaped: bool, part: &str, text: &mut Vec<u8>) -> bool {
    if !is_escaped {
        return text.extend_from_slice(part.as_bytes()).is_ok();
    }
    let (digits, others) = part.split_at_checked(2).unwrap_or(("", ""));
    match u8::from_str_radix(digits, 16) {
        Ok(byte) => { text.push(byte).is_ok() && text.extend_from_slice(others.as_bytes()).is_ok() }
        Err(_) => false,
    }
}
