//! Decimals and strings as they are written.

use crate::answers::{Answer, NO_MEMORY};
use osm_elements::Text;
use osm_notation::{put_decimal, written};
use std::alloc::Global;

/// Adds the decimal of a number of units.
pub(crate) fn put_printed(digits: &str, told: &mut Answer) {
    let Ok(number) = digits.parse() else {
        return told.put("no number");
    };
    let mut buf = [0; 24];
    let len = put_decimal(&mut buf, number);
    told.put_bytes(&buf[..len]);
}

/// Adds a text as it is written.
pub(crate) fn put_string(alloc: Global, text: &str, told: &mut Answer) {
    match Text::from_str(alloc, text) {
        Ok(text) => put_written(alloc, &text, told),
        Err(_) => told.put(NO_MEMORY),
    }
}

/// Adds the bytes of a text as it is written.
fn put_written(alloc: Global, text: &Text, told: &mut Answer) {
    match written(alloc, text) {
        Ok(bytes) => told.put_bytes(&bytes),
        Err(_) => told.put(NO_MEMORY),
    }
}
