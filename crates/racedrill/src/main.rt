// `racedrill SEED` makes the practice pair of a seed: `program.txt` and `split.txt` in the current folder. It writes one line:
// `DRILL,` with the new x and the two lengths, or `UNMADE`, and then no file of its own is left behind and standard error says why.
// Everything that matters is in the library `drill`; here is only what meets the outside.
#![tactic(auto)]

mod line;
mod pair;
mod seed;

ghost use Rattle.std.specs.Prelude.{◌≡◌, ◌≤◌, length};
ghost use Rattle.spec.specs.Text.{bytes};
ghost use Rattle.racedrill.specs.Made.{FileOf, TextsOf, LineOf};

use drill::Drilled;
use file_io::{Unmade, is_given, make_file, remove_file, write_all};
use line::write_line;
use pair::pair_of;
use std::env::Env;
use std::fs::Files;
use std::io::Write;

// Says on standard error what is wrong with a file.
fn complain<E: Write>(err: &mut E, name: &str, what: &[u8]) {
    write_all(err, b"racedrill: ");
    write_all(err, name.as_bytes());
    write_all(err, what);
}

fn write_unmade<W: Write>(out: &mut W) {
    write_all(out, b"UNMADE\n");
}

// Tells of the pair that a word asks for. The line is made first and written by one call.
fn write_drill<W: Write>(out: &mut W, word: &[u8], drilled: Drilled)
    requires { LineOf word.now drilled.next drilled.program drilled.split }
{
    let mut line = [0u8; 40];
    let n = write_line(&mut line, drilled);
    write_all(out, &line[..n]);
}

// Makes a file of the pair that a word asks for, with its own text, or says why there is none.
fn make<R: Files + Env, E: Write>(rt: &R, err: &mut E, word: &[u8], name: &str, text: &[u8]) -> bool
    requires { FileOf word.now name.now text.now }
{
    match make_file(rt, name, text) {
        Ok(_) => return true,
        Err(Unmade::Taken) => complain(err, name, b" is there already\n"),
        Err(Unmade::Unwritten) => complain(err, name, b" can't be written\n"),
    }
    false
}

// Takes back the program sheet, which was made just before. No other file is ever removed.
fn take_back<R: Files, E: Write>(rt: &R, err: &mut E, name: &str)
    requires { name.now ≡ bytes "program.txt" }
{
    if !remove_file(rt, name) {
        complain(err, name, b" can't be removed again\n");
    }
}

// Makes both files or none.
fn make_both<R: Files + Env, E: Write>(
    rt: &R,
    err: &mut E,
    word: &[u8],
    program: &[u8],
    split: &[u8],
) -> bool
    requires { TextsOf word.now program.now split.now }
{
    if !make(rt, err, word, "program.txt", program) {
        return false;
    }
    if make(rt, err, word, "split.txt", split) {
        return true;
    }
    take_back(rt, err, "program.txt");
    false
}

// Makes the pair of a word, in buffers that have room for any sheet.
fn run<R: Files + Env, W: Write, E: Write>(rt: &R, out: &mut W, err: &mut E, word: &[u8]) {
    let mut program = [0u8; 16384];
    let mut split = [0u8; 65536];
    let Some(drilled) = pair_of(word, &mut program, &mut split) else {
        complain(
            err,
            "the seed",
            b" is a number from 0 to 4294967295, without leading zeros\n",
        );
        return write_unmade(out);
    };
    let program = &program[..drilled.program as usize];
    let split = &split[..drilled.split as usize];
    if make_both(rt, err, word, program, split) {
        write_drill(out, word, drilled);
    } else {
        write_unmade(out);
    }
}

// Puts the first argument in front of a buffer, and hands back its length. A longer one than the buffer is handed back as an empty word.
fn word_in<R: Env>(rt: &R, buffer: &mut [u8]) -> usize
    ensures { result ≤ length buffer.new }
{
    rt.arg(1, buffer).unwrap_or(0)
}

// One argument: the seed. A longer word than ten bytes is no numeral below 2^32.
fn main(rt: HostRuntime) {
    let mut out = rt.stdout();
    let mut err = rt.stderr();
    if !is_given(&rt, 1) || is_given(&rt, 2) {
        write_all(
            &mut err,
            b"usage: racedrill SEED, in a folder without program.txt and split.txt\n",
        );
        write_unmade(&mut out);
        return;
    }
    let mut word = [0u8; 10];
    let n = word_in(&rt, &mut word);
    run(&rt, &mut out, &mut err, &word[..n]);
}
