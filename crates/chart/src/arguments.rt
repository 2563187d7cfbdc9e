// What the words after the file's name ask for.
use std::env::{Env, FillError};
use std::io;
use std::io::Write;

#[derive(Clone, Copy)]
pub struct Options {
    // The first offset, if numbers is not 0.
    pub first: u64,
    pub units: usize,
    pub svg: bool,
    // How many numbers there were.
    pub numbers: u32,
}

const MOST_UNITS: u64 = 64;

pub(crate) fn print_usage(out: &mut impl Write) -> io::Result<()> {
    writeln!(out, "usage: chart FILE [FIRST [UNITS]] [svg]")?;
    write!(out, "FILE has one layout4 as on the wire. ")?;
    writeln!(
        out,
        "The chart shows UNITS stripe units, 1 to 64, from the offset FIRST on."
    )
}

// A decimal number below 2^64.
fn read_number(text: &[u8]) -> Option<u64> {
    if text.is_empty() {
        return None;
    }
    let mut v: u64 = 0;
    for b in text {
        if !b.is_ascii_digit() {
            return None;
        }
        let digit = u64::from(*b - b'0');
        v = v.checked_mul(10)?.checked_add(digit)?;
    }
    Some(v)
}

// The options with one more number in it: the first is an offset, the second a count of units.
fn with_number(w: Options, v: u64) -> Option<Options> {
    let mut r = w;
    if w.numbers == 0 {
        r.first = v;
        r.numbers = 1;
        return Some(r);
    }
    if w.numbers != 1 {
        return None;
    }
    if v == 0 {
        return None;
    }
    if MOST_UNITS < v {
        return None;
    }
    r.units = v as usize;
    r.numbers = 2;
    Some(r)
}

fn with_word(w: Options, word: &[u8]) -> Option<Options> {
    if octets::same(word, b"svg") {
        let mut r = w;
        r.svg = true;
        return Some(r);
    }
    with_number(w, read_number(word)?)
}

// The options with the word of one argument, if there is one. A word longer than the buffer is no word of the options.
fn with_argument(rt: &impl Env, w: Options, i: usize) -> Option<Options> {
    let mut word = [0u8; 32];
    match rt.arg(i, &mut word) {
        Ok(n) => with_word(w, &word[..n]),
        Err(FillError::NotPresent) => Some(w),
        Err(FillError::TooLong) => None,
    }
}

// Whether there is an argument of that number, however long.
fn has_argument(rt: &impl Env, i: usize) -> bool {
    let mut nothing = [0u8; 0];
    !matches!(rt.arg(i, &mut nothing), Err(FillError::NotPresent))
}

// At most three words are after the file's name.
pub(crate) fn read_options(rt: &impl Env) -> Option<Options> {
    if !has_argument(rt, 1) || has_argument(rt, 5) {
        return None;
    }
    let mut w = Options {
        first: 0,
        units: 8,
        svg: false,
        numbers: 0,
    };
    for i in 2..5 {
        w = with_argument(rt, w, i)?;
    }
    Some(w)
}
