// Plays the day of recorded calls that its first argument names, and writes a line for each call; or, where the second argument is
// `explain`, tells each call in words.
#![tactic(auto)]

use say::fault::fail;
use say::text::Style;
use std::env::{Env, FillError};
use std::fs::Files;
use std::{fs, io};

mod dayfile; // dayfile.rt: the day's file, read in pieces

// Linux's numbers for "Invalid argument", "File name too long" and "Invalid or incomplete multibyte or wide character".
const INVALID: i32 = 22;

const TOO_LONG: i32 = 36;

const NO_TEXT: i32 = 84;

// The room for an argument.
const ROOM: usize = 4096;

// What the second argument asks for; there is no other style.
fn asked_for<R: Env>(rt: &R) -> Option<Style> {
    let mut word = [0; ROOM];
    match rt.arg(2, &mut word) {
        Ok(n) => (word[..n] == b"explain"[..]).then_some(Style::Words),
        Err(FillError::NotPresent) => Some(Style::Lines),
        Err(FillError::TooLong) => None,
    }
}

// "A file that can't be opened or read is named on standard error, and nothing is said on standard output."
// The name of a file is text.
fn play<R: Files + Print + Eprint, E: Print>(rt: &R, errors: &E, path: &[u8], style: Style) {
    let Ok(name) = str::from_utf8(path) else {
        let _ = errors.write_all(path);
        return fail(rt, "", io::Error::from_raw_os_error(NO_TEXT));
    };
    match fs::open(rt, name) {
        Ok(mut file) => dayfile::play(rt, &mut file, path, style),
        Err(e) => fail(rt, name, e),
    }
}

// The first argument can't be had.
fn refuse<R: Eprint>(rt: &R, why: FillError) {
    let number = match why {
        FillError::NotPresent => INVALID,
        FillError::TooLong => TOO_LONG,
    };
    fail(
        rt,
        "replay: the day's file",
        io::Error::from_raw_os_error(number),
    );
}

fn main(rt: HostRuntime) {
    let mut path = [0; ROOM];
    let length = match rt.arg(1, &mut path) {
        Ok(n) => n,
        Err(why) => return refuse(&rt, why),
    };
    match asked_for(&rt) {
        Some(style) => play(&rt, &rt.stderr(), &path[..length], style),
        None => {
            let _ = eprintln!(rt; "replay: the second argument can only be 'explain'");
        }
    }
}
