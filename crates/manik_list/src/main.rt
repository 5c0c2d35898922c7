// The program behind tools/manik-list: the listing of the image in a file, by the words IMAGE or IMAGE START END.
#![tactic(auto)]

mod messages;
mod numbers;
mod parts;
mod ranges;

use crate::messages::{say, say_failed, say_why};
use crate::numbers::number;
use crate::parts::write_listing;
use crate::ranges::Range;
use reading::read_full;
use saying::say_unwritten;
use std::env::FillError;
use std::io::{Error, ErrorKind};
use std::rt::{Env, Files};
use std::{fs, io, str};

// What the words ask for.
#[derive(Clone, Copy)]
enum Call {
    Whole,
    Part(Range),
}

impl Call {
    fn range(self, length: usize) -> Range {
        match self {
            Call::Whole => Range::whole(length),
            Call::Part(range) => range,
        }
    }
}

// START or END, by its place among the words.
fn number_at(env: &impl Env, err: &impl Print, i: usize, name: &[u8]) -> Option<usize> {
    let mut room = [0u8; 4096];
    let Ok(n) = env.arg(i, &mut room) else {
        say(err, &[name, b" is longer than 4096 bytes"]);
        return None;
    };
    let word = &room[..n];
    let Some(number) = number(word) else {
        say(
            err,
            &[
                name,
                b" is no decimal or 0x hex number below 4294967296: ",
                word,
            ],
        );
        return None;
    };
    Some(number as usize)
}

fn range_asked(env: &impl Env, err: &impl Print) -> Option<Range> {
    let start = number_at(env, err, 2, b"START")?;
    let end = number_at(env, err, 3, b"END")?;
    Some(Range { start, end })
}

// A word that does not fit the room is there all the same.
fn has_word(env: &impl Env, i: usize) -> bool {
    let mut room = [0u8; 1];
    !matches!(env.arg(i, &mut room), Err(FillError::NotPresent))
}

// What the words after the program's name ask for.
fn asked(env: &impl Env, err: &impl Print) -> Option<Call> {
    if has_word(env, 1) && !has_word(env, 2) {
        return Some(Call::Whole);
    }
    if has_word(env, 3) && !has_word(env, 4) {
        return range_asked(env, err).map(Call::Part);
    }
    say(err, &[b"the words are IMAGE, or IMAGE START END"]);
    None
}

fn list_image(to: &impl Print, err: &impl Print, image: &[u8], call: Call, file: &[u8]) {
    let range = call.range(image.len());
    match range.check(image.len()) {
        Ok(()) => {
            if let Err(e) = write_listing(to, image, range) {
                say_unwritten(err, b"manik-list: standard output", e);
            }
        }
        Err(why) => say_why(err, file, why, range, image.len()),
    }
}

// A path of std is text, so a file whose name is none is not opened.
fn open<R: Files>(rt: &R, file: &[u8]) -> io::Result<R::File> {
    let Ok(path) = str::from_utf8(file) else {
        return Err(Error::new(ErrorKind::InvalidFilename, "Not UTF-8"));
    };
    fs::open(rt, path)
}

fn read_file(rt: &impl Files, file: &[u8], room: &mut [u8]) -> io::Result<usize> {
    let mut image = open(rt, file)?;
    read_full(&mut image, room)
}

// One byte more than an image has shows a file that is too long, however long it is.
fn list_file(rt: &(impl Files + Print), err: &impl Print, file: &[u8], call: Call) {
    let mut room = [0u8; 65537];
    match read_file(rt, file, &mut room) {
        Ok(n) => list_image(rt, err, text::start_part(&room, n), call, file),
        Err(e) => say_failed(err, file, e),
    }
}

fn list(rt: &(impl Env + Files + Print), err: &impl Print, call: Call) {
    let mut room = [0u8; 4096];
    let Ok(n) = rt.arg(1, &mut room) else {
        say(err, &[b"IMAGE", b" is longer than 4096 bytes"]);
        return;
    };
    list_file(rt, err, &room[..n], call);
}

fn main(rt: HostRuntime) {
    let err = rt.stderr();
    if let Some(call) = asked(&rt, &err) {
        list(&rt, &err, call);
    }
}
