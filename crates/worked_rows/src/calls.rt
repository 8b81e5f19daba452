//! Rows that make calls: the answer of each is a text.

use crate::answers::Answer;
use crate::form::{Field, first_word, said, text_of};
use crate::telling::tell;
use crate::{feeding, fronts, notation, objects, packed, reading, samples, words, written};
use std::alloc::Global;

/// What parts a call's text from its answer in a row of many calls.
const ARROW: &str = " -> ";

/// A call: its word, what else its row says of it, and the text that it is made on.
#[derive(Clone, Copy)]
pub(crate) struct Call<'a> {
    pub(crate) word: &'a str,
    pub(crate) by: &'a str,
    pub(crate) text: &'a [u8],
}

/// Adds the answer of a call.
fn answer(alloc: Global, call: Call<'_>, told: &mut Answer) {
    match call.word {
        "fronts" => fronts::put_fronts(alloc, call, told),
        "sampled" => samples::put_sampled(alloc, call, told),
        "pieces" => feeding::put_pieces(alloc, call, told),
        "fed" => feeding::put_fed(alloc, call, told),
        "decimal" => reading::put_decimal(call, told),
        "count" => reading::put_count(alloc, call.text, told),
        "points" => reading::put_points(alloc, call.text, told),
        "line" => objects::put_line(alloc, call.text, told),
        word => answer_text(alloc, word, str::from_utf8(call.text).unwrap_or(""), told),
    }
}

/// Adds the answer of a call on a text that is UTF-8.
fn answer_text(alloc: Global, word: &str, text: &str, told: &mut Answer) {
    match word {
        "job" => words::put_job(alloc, text, told),
        "command" => words::put_command(alloc, text, told),
        "sample" => samples::put_sample(alloc, text, told),
        "keys" => reading::put_keys(alloc, text, told),
        "rewritten" => written::put_rewritten(alloc, text, told),
        "printed" => notation::put_printed(text, told),
        "string" => notation::put_string(alloc, text, told),
        "references" => packed::put_references(alloc, text, told),
        "tags" => packed::put_values(alloc, text, told),
        "bytes" => packed::put_bytes(alloc, text, told),
        _ => told.put("an unknown call"),
    }
}

/// Tells where the answer of a row's call, or those of its calls line by line, differ from what is wanted.
pub(crate) fn tell_calls(alloc: Global, fields: &[Field<'_>], differences: &mut Answer) {
    let field = if said(fields, "each").is_empty() {
        "call"
    } else {
        "each"
    };
    let call = Call {
        word: first_word(said(fields, field)).0,
        by: said(fields, "by"),
        text: text_of(fields, field),
    };
    if field == "call" {
        tell_answer(alloc, call, text_of(fields, "out"), differences);
    } else {
        tell_answers(alloc, call, differences);
    }
}

/// Tells where the answer of a call differs from what is wanted.
fn tell_answer(alloc: Global, call: Call<'_>, wanted: &[u8], differences: &mut Answer) {
    let mut got = Answer::new(alloc);
    answer(alloc, call, &mut got);
    end_line(&mut got);
    differences.is_whole &= got.is_whole;
    tell("out", wanted, got.text.as_bytes(), differences);
}

/// Ends a text with a newline, unless it is empty or has one.
fn end_line(text: &mut Answer) {
    if !text.text.is_empty() && !text.text.ends_with('\n') {
        text.put("\n");
    }
}

/// Tells where the answers of calls line by line differ from those that stand there.
fn tell_answers(alloc: Global, calls: Call<'_>, differences: &mut Answer) {
    let mut got = Answer::new(alloc);
    answer_each(alloc, calls, &mut got);
    differences.is_whole &= got.is_whole;
    tell("each", calls.text, got.text.as_bytes(), differences);
}

/// Adds the calls of a row that makes one a line, each with its answer.
fn answer_each(alloc: Global, calls: Call<'_>, got: &mut Answer) {
    for line in str::from_utf8(calls.text).unwrap_or("not UTF-8").lines() {
        answer_line(alloc, calls, first_part(line), got);
    }
}

/// The text of a call in a line.
fn first_part(line: &str) -> &str {
    line.split_once(ARROW).unwrap_or((line, "")).0
}

/// Adds a call and its answer, as a line.
fn answer_line(alloc: Global, calls: Call<'_>, text: &str, got: &mut Answer) {
    got.put(text);
    got.put(ARROW);
    let call = Call {
        text: text.as_bytes(),
        ..calls
    };
    answer(alloc, call, got);
    got.put("\n");
}
