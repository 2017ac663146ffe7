// Plays recordings whole, each on a blank module of its own, and holds the printed lines to a file: its arguments name a
// recording and that file, and so on.
#![tactic(auto)]

use player::Player;
use reading::read_full;
use std::env::{Env, FillError};
use std::fs;

// Where standard output fails, the play goes on.
fn say(rt: &HostRuntime, text: &[u8]) {
    let _ = rt.write_all(text);
}

// An argument, which this text has room for: none past the last, and an empty one where it is longer than the text.
fn argument<'a>(rt: &HostRuntime, i: usize, text: &'a mut [u8]) -> Option<&'a [u8]> {
    match rt.arg(i, text) {
        Ok(length) => Some(&text[..length]),
        Err(FillError::TooLong) => Some(&[]),
        Err(FillError::NotPresent) => None,
    }
}

// What the file of this name has, as far as there is room; nothing where the name is no text or the file cannot be opened.
fn contents<'a>(rt: &HostRuntime, name: &[u8], into: &'a mut [u8]) -> &'a [u8] {
    let Ok(path) = str::from_utf8(name) else {
        return &[];
    };
    let Ok(mut file) = fs::open(rt, path) else {
        return &[];
    };
    let length = read_full(&mut file, into);
    &into[..length]
}

// Plays the recording of the first name, and says whether it prints what the file of the second has.
fn play(rt: &HostRuntime, recording: &[u8], lines: &[u8]) {
    let mut records = [0; 4096];
    let mut printed = [0; 122_880];
    let mut expected = [0; 65_536];
    let played = Player::blank().play(contents(rt, recording, &mut records), true, &mut printed);
    let same = &printed[..played.written] == contents(rt, lines, &mut expected);
    say(rt, recording);
    say(rt, if same { b": as " } else { b": not as " });
    say(rt, lines);
    let index = played.player.index;
    let _ = println!(rt; " has it, lines {index}");
}

fn main(rt: HostRuntime) {
    let mut first = [0; 4096];
    let mut second = [0; 4096];
    for pair in 0..usize::MAX / 2 {
        let Some(recording) = argument(&rt, 2 * pair + 1, &mut first) else {
            return;
        };
        let lines = argument(&rt, 2 * pair + 2, &mut second).unwrap_or(&[]);
        play(&rt, recording, lines);
    }
}
