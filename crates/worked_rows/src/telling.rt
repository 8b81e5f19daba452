//! What is told of rows: a line for each, which ends in `ok` or says what was wanted and what came.

use crate::answers::Answer;
use crate::calls::tell_calls;
use crate::form::{Field, add_line, find, find_text, first_word};
use crate::running::tell_run;
use std::alloc::{AllocError as OutOfMemory, Global};
use std::io;
use std::process::ExitCode;

/// What came of the rows so far: the texts that have names, the lines to print, and how many rows went as wanted.
#[derive(Drop)]
struct Told<'a> {
    texts: Vec<Field<'a>>,
    lines: Answer,
    passed: u64,
    failed: u64,
}

/// Follows the rows of standard input. For each a line is printed, and last how many went as wanted, and how many didn't. The status
/// is 1 where one didn't.
pub(crate) fn follow_rows(rt: HostRuntime) -> io::Result<ExitCode> {
    let rows = io::read_to_string(rt.alloc(), rt.stdin())?;
    let (lines, all) = tell_all(rt.alloc(), &rows)?;
    print!(rt; "{lines}")?;
    Ok(ExitCode::from(u8::from(!all)))
}

/// What is printed of rows, and whether all went as wanted.
fn tell_all(alloc: Global, rows: &str) -> Result<(String, bool), OutOfMemory> {
    let mut told = Told {
        texts: Vec::new(alloc),
        lines: Answer::new(alloc),
        passed: 0,
        failed: 0,
    };
    tell_rows(alloc, rows, &mut told);
    put_counts(&mut told);
    if !told.lines.is_whole {
        return Err(OutOfMemory);
    }
    Ok((told.lines.text, told.failed == 0))
}

/// Adds how many rows went as wanted, and how many didn't.
fn put_counts(told: &mut Told<'_>) {
    told.lines.put_shown(&told.passed);
    told.lines.put(" passed, ");
    told.lines.put_shown(&told.failed);
    told.lines.put(" failed\n");
}

/// Follows each block.
fn tell_rows<'a>(alloc: Global, rows: &'a str, told: &mut Told<'a>) {
    for block in rows.split("\n\n") {
        tell_block(alloc, block, told);
    }
}

/// Reads the fields of a block, and then keeps a text or follows a row.
fn tell_block<'a>(alloc: Global, block: &'a str, told: &mut Told<'a>) {
    let mut fields = Vec::new(alloc);
    let mut differences = Answer::new(alloc);
    add_lines(alloc, block, &told.texts, &mut fields, &mut differences);
    follow(alloc, &fields, &told.texts, &mut differences);
    tell_differences(&fields, &differences, told);
    keep_text(&mut fields, told);
}

/// Adds the lines of a block.
fn add_lines<'a>(
    alloc: Global,
    block: &'a str,
    texts: &[Field<'_>],
    fields: &mut Vec<Field<'a>>,
    faults: &mut Answer,
) {
    for line in block.lines() {
        add_line(alloc, line, texts, fields, faults);
    }
}

/// Makes what a row says, and adds where it differs from what is wanted; of a text what is wrong with it.
fn follow(alloc: Global, fields: &[Field<'_>], texts: &[Field<'_>], differences: &mut Answer) {
    match fields {
        [] => {}
        [first, ..] if first.word == "row" => add_differences(alloc, fields, differences),
        [text] if text.word == "text" => put_twice(texts, first_word(text.said).0, differences),
        _ => differences.put(" no row, and no text alone;"),
    }
}

/// Adds that a text of this name is there already.
fn put_twice(texts: &[Field<'_>], name: &str, faults: &mut Answer) {
    if find_text(texts, name).is_some() {
        faults.put(" a name of two texts;");
    }
}

/// Adds where a row's run or its calls differ from what is wanted.
fn add_differences(alloc: Global, fields: &[Field<'_>], differences: &mut Answer) {
    if find(fields, "words").is_some() {
        tell_run(alloc, fields, differences);
    } else {
        tell_calls(alloc, fields, differences);
    }
}

/// Tells how a row went, and of a text what is wrong with it.
fn tell_differences(fields: &[Field<'_>], differences: &Answer, told: &mut Told<'_>) {
    told.lines.is_whole &= differences.is_whole;
    if !differences.text.is_empty() {
        told.failed = told.failed.saturating_add(1);
        put_row(fields, &differences.text, &mut told.lines);
    } else if find(fields, "row").is_some() {
        told.passed = told.passed.saturating_add(1);
        put_row(fields, " ok", &mut told.lines);
    }
}

/// Adds the line of a row.
fn put_row(fields: &[Field<'_>], text: &str, lines: &mut Answer) {
    lines.put(name_of(fields));
    lines.put(":");
    lines.put(text);
    lines.put("\n");
}

/// What the first field of a block says: the name of its row or text.
fn name_of<'a>(fields: &[Field<'a>]) -> &'a str {
    match fields.first() {
        Some(first) => first.said,
        None => "",
    }
}

/// Keeps a text for later blocks.
fn keep_text<'a>(fields: &mut Vec<Field<'a>>, told: &mut Told<'a>) {
    if find(fields, "row").is_none() && told.texts.append(fields).is_err() {
        told.lines.is_whole = false;
    }
}

/// Adds a difference, where there is one.
pub(crate) fn tell(word: &str, wanted: &[u8], got: &[u8], differences: &mut Answer) {
    if wanted != got {
        differences.put(" ");
        differences.put(word);
        differences.put(" wanted ");
        differences.put_debug(&str::from_utf8(wanted).unwrap_or("not UTF-8"));
        differences.put(", got ");
        differences.put_debug(&str::from_utf8(got).unwrap_or("not UTF-8"));
        differences.put(";");
    }
}
