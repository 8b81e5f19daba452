//! A row's run over a host in memory, and where it differs from what is wanted.

use crate::answers::Answer;
use crate::form::{Field, first_word, if_said, number, said, text_of};
use crate::telling::tell;
use crate::words::add_words;
use osm_cli::{Ended, command_of, run, status};
use std::alloc::Global;
use tests_host::MemoryHost;

/// The host's room for what is written.
const ROOM: usize = 65536;

/// Makes a row's run, and tells where it differs from what is wanted: nothing where it doesn't.
pub(crate) fn tell_run(alloc: Global, fields: &[Field<'_>], differences: &mut Answer) {
    let digits = if_said(fields, "most").unwrap_or("65536");
    let most = number(digits, differences);
    let mut host = MemoryHost::new(alloc, (most as usize).max(1));
    differences.is_whole &= host.reserve(ROOM).is_ok();
    prepare_all(fields, &mut host, differences);
    run_over(alloc, fields, &mut host, differences);
}

/// Runs a row's words over a host, and tells where the run differs from what is wanted.
fn run_over(alloc: Global, fields: &[Field<'_>], host: &mut MemoryHost, differences: &mut Answer) {
    let mut words = Vec::new(alloc);
    differences.is_whole &= add_words(alloc, said(fields, "words"), &mut words);
    let ended = run(alloc, &words, host);
    let status = status(command_of(&words), &ended);
    let ends = if_said(fields, "ends").unwrap_or("0");
    tell_ending(alloc, ends, status, &ended, differences);
    tell("out", text_of(fields, "out"), host.out(), differences);
    tell(
        "report",
        text_of(fields, "report"),
        host.report(),
        differences,
    );
}

/// Gives a host what fields say of it.
fn prepare_all(fields: &[Field<'_>], host: &mut MemoryHost, faults: &mut Answer) {
    for field in fields {
        let is_given = prepare(field, host, faults);
        faults.is_whole &= is_given;
    }
}

/// Gives a host what a field says of it, and says whether memory sufficed.
fn prepare(field: &Field<'_>, host: &mut MemoryHost, faults: &mut Answer) -> bool {
    match field.word {
        "input" => host
            .add_input(first_word(field.said).0, &field.text)
            .is_ok(),
        "taken" => host.take_name(field.said).is_ok(),
        "fails" => fail_at(field.said, host, faults),
        _ => true,
    }
}

/// Lets the calls of these numbers fail, and says whether memory sufficed.
fn fail_at(numbers: &str, host: &mut MemoryHost, faults: &mut Answer) -> bool {
    let mut is_given = true;
    for digits in numbers.split_whitespace() {
        is_given &= host.fail_at(number(digits, faults)).is_ok();
    }
    is_given
}

/// Tells the status and the ending of a run, unless they begin with what is wanted.
fn tell_ending(alloc: Global, wanted: &str, status: u8, ended: &Ended, differences: &mut Answer) {
    let mut got = Answer::new(alloc);
    got.put_shown(&status);
    got.put(" ");
    got.put_debug(ended);
    got.put(" ");
    differences.is_whole &= got.is_whole;
    if !begins_with(&got.text, wanted) {
        tell("ends", wanted.as_bytes(), got.text.as_bytes(), differences);
    }
}

/// Whether a text begins with these words.
fn begins_with(text: &str, words: &str) -> bool {
    match text.strip_prefix(words) {
        Some(others) => others.starts_with(' '),
        None => false,
    }
}
