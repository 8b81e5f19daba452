//! The first byte at which a text is cut, or the text's length. Most texts that are cut have few bytes.

ghost use Rattle.std.specs.Prelude.{◌≡◌, ◌+◌, ◌<◌, ◌≤◌, ◌==◌, length, drop, MatchOption, IfSome};
ghost use Rattle.std.specs.List.{position_or_len};
ghost use Rattle.opl_reader.specs.LineReading.{is_separator};
ghost use Rattle.opl_reader.specs.Steps.{is_low};

/// The first place of this byte, or the length.
pub fn first_cut(text: &[u8], byte: u8) -> usize
    ensures value { result ≡ position_or_len (λ b. b == byte) text.now }
    ensures bound { result ≤ length text.now }
{
    for place in 0..text.len() {
        if text[place] == byte {
            return place;
        }
    }
    text.len()
}

/// Whether this is a space or a tab.
fn is_separator(byte: u8) -> bool
    ensures { result ≡ is_separator byte }
{
    byte == b' ' || byte == b'\t'
}

/// The first of the four bytes from this place on that is at most a space.
#[inline(always)]
fn low_among_four(text: &[u8], place: usize) -> Option<usize>
    requires { place + 4 ≤ length text.now }
    ensures value { MatchOption result
        (position_or_len is_low (drop place text.now)
        ≡ 4 + position_or_len is_low (drop (place + 4) text.now))
        (λ found. found ≡ place + position_or_len is_low (drop place text.now)) }
    ensures bound { IfSome result (λ found. found < length text.now) }
{
    for step in 0..4 {
        if text[place + step] <= b' ' {
            return Some(place + step);
        }
    }
    None
}

/// The first place from this one on of a byte that is at most a space, or the length.
fn low_by_ones(text: &[u8], start: usize) -> usize
    requires { start ≤ length text.now }
    ensures value { result ≡ start + position_or_len is_low (drop start text.now) }
    ensures bound { result ≤ length text.now }
{
    for place in start..text.len() {
        if text[place] <= b' ' {
            return place;
        }
    }
    text.len()
}

/// The same, but tests for the end of the text once in four bytes.
#[inline(always)]
fn low_by_fours(text: &[u8], start: usize) -> usize
    requires { start ≤ length text.now }
    ensures value { result ≡ start + position_or_len is_low (drop start text.now) }
    ensures bound { result ≤ length text.now }
{
    let mut place = start;
    while text.len() - place >= 4 {
        if let Some(found) = low_among_four(text, place) {
            return found;
        }
        place += 4;
    }
    low_by_ones(text, place)
}

/// The first place of a space or a tab, or the length. Nearly every byte is greater than both, and one test shows it.
#[inline(always)]
pub fn first_separator(text: &[u8]) -> usize
    ensures value { result ≡ position_or_len is_separator text.now }
    ensures bound { result ≤ length text.now }
{
    let mut place = 0;
    while place < text.len() {
        let low = low_by_fours(text, place);
        if low == text.len() {
            return low;
        }
        if is_separator(text[low]) {
            return low;
        }
        place = low + 1;
    }
    text.len()
}
