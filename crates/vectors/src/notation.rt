// How the cases are written, on standard input. A group begins with an at sign, its kind, a blank
// and its name, to the line's end:
//
//     r  recordings    c  calls
//
// The kind in capitals is of cases that must differ: each is one that holds, but for one thing
// wrong in what it should be. It comes out right if the comparison says that it differs. Before the
// first case come remarks and, behind a caret, what every recording or call of the group begins
// with.
//
// A case begins with a star. One that is a recording:
//
//     * what it shows
//     the recording, in 01's notation: hex, blanks and semicolons for the eye only
//     >
//     the lines that it must print
//     = remembered status, last command, marks, blocks that wait; the open message, where there is
//     one; then every nonzero cell, rising, as address and word
//
// The marks are a byte: bit 0 line A shut, 1 line B shut, 2 inhibit, 3 overflow. Of an open message
// there are command, block and a byte: its stage, 1 data, 2 second command, 3 awaiting status, 4
// skipping, and bit 7 where the host has set the table block since. Where no setup was taken the
// status is F800, that of no station.
//
// `calls` says what a case that is a call has.

use arrayvec::ArrayVec;
use std::io::Write;
use std::{array, iter};

// What a case gives, or what a call leaves; what has no room is cut.
pub(crate) type Bytes<const ROOM: usize> = ArrayVec<u8, ROOM>;

// The words of a call.
pub(crate) type Row = [u16; 16];

// A text before and behind the first such byte: all of it and nothing, where there is none.
pub(crate) fn cut(text: &[u8], byte: u8) -> (&[u8], &[u8]) {
    match text.iter().position(|&other| other == byte) {
        Some(at) => (&text[..at], &text[at + 1..]),
        None => (text, &[]),
    }
}

// ---- what is left

// Puts each byte that there is room for.
pub(crate) fn put_bytes<W: Write>(out: &mut W, bytes: &[u8]) {
    let _ = out.write(bytes);
}

// Puts words, high byte first.
pub(crate) fn put_words<W: Write>(out: &mut W, words: &[u16]) {
    for word in words {
        put_bytes(out, &word.to_be_bytes());
    }
}

// Every word that is not the given one, behind its place.
pub(crate) fn put_others<W: Write>(out: &mut W, words: &[u16], given: u16) {
    for (place, &word) in (0..=u16::MAX).zip(words) {
        if word != given {
            put_words(out, &[place, word]);
        }
    }
}

// ---- hex

// A digit's number.
fn digit(byte: u8) -> Option<u8> {
    match byte {
        b'0'..=b'9' => Some(byte - b'0'),
        b'A'..=b'F' => Some(byte - b'A' + 10),
        _ => None,
    }
}

// Puts the bytes that a text's hex digits spell, two by two; every other byte is for the eye.
fn put_hex<const ROOM: usize>(out: &mut Bytes<ROOM>, text: &[u8]) {
    let mut high: Option<u8> = None;
    for low in text.iter().filter_map(|&byte| digit(byte)) {
        match high.take() {
            None => high = Some(low),
            Some(high) => put_bytes(out, &[high << 4 | low]),
        }
    }
}

// ---- rows

// The words of a call's bytes, high byte first, 0 where it has no such byte.
pub(crate) fn row_of(bytes: &[u8]) -> Row {
    let mut bytes = bytes.iter().copied().chain(iter::repeat(0));
    array::from_fn(|_| u16::from_be_bytes([bytes.next().unwrap_or(0), bytes.next().unwrap_or(0)]))
}

// ---- a case

// Whether a case leaves what it should, by a comparison of what is given with that. Given are the
// bytes that its text spells, behind those that its group begins with; it must leave those that the
// state spells. The two have the room together that is lent for them, and empty.
pub(crate) fn leaves<const ROOM: usize, F: Fn(&[u8], &[u8]) -> bool>(
    bytes: &mut Bytes<ROOM>,
    before: &[u8],
    text: &[u8],
    state: &[u8],
    is_left: F,
) -> bool
    requires { F.IsAlwaysCallable is_left }
{
    put_hex(bytes, before);
    put_hex(bytes, text);
    let given = bytes.len();
    put_hex(bytes, state);
    let bytes = bytes.as_slice();
    is_left(
        bytes.get(..given).unwrap_or(&[]),
        bytes.get(given..).unwrap_or(&[]),
    )
}
