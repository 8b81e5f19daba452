//! Words, what they ask for and why they aren't taken.

use crate::answers::{Answer, NO_MEMORY};
use osm_words::{WordsError, command_of, job_of};
use std::alloc::{AllocError as OutOfMemory, Global};

/// Adds the words of a line; `''` stands for the empty word, and `~` for a blank within a word. Says whether memory sufficed.
pub(crate) fn add_words(alloc: Global, line: &str, words: &mut Vec<String>) -> bool {
    let mut is_whole = true;
    for word in line.split(' ') {
        if !word.is_empty() {
            is_whole &= add_word(alloc, word, words);
        }
    }
    is_whole
}

/// Adds a word.
fn add_word(alloc: Global, word: &str, words: &mut Vec<String>) -> bool {
    match word_of(alloc, word) {
        Ok(word) => words.push(word).is_ok(),
        Err(_) => false,
    }
}

/// The word that stands so in a line.
fn word_of(alloc: Global, word: &str) -> Result<String, OutOfMemory> {
    if word == "''" {
        return Ok(String::new(alloc));
    }
    word.replace(alloc, "~", " ")
}

/// Adds the job that words ask for, or why they aren't taken.
pub(crate) fn put_job(alloc: Global, line: &str, told: &mut Answer) {
    let mut words = Vec::new(alloc);
    told.is_whole &= add_words(alloc, line, &mut words);
    match job_of(alloc, &words) {
        Ok(job) => told.put_debug(&job),
        Err(WordsError::BadWords { cause }) => told.put_debug(&cause),
        Err(WordsError::OutOfMemory) => told.put(NO_MEMORY),
    }
}

/// Adds the command that words name.
pub(crate) fn put_command(alloc: Global, line: &str, told: &mut Answer) {
    let mut words = Vec::new(alloc);
    told.is_whole &= add_words(alloc, line, &mut words);
    told.put_debug(&command_of(&words));
}
