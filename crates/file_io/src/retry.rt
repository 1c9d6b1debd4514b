// Calls of the system that are made again when they failed for a reason that passes. Every loop has to end, so a call is made at
// most a million times; then it counts as one that failed. Where a signal interrupts an open, the library makes that call again by
// itself, and its limit is larger.
ghost use Rattle.std.specs.Prelude.{◌≤◌, IfNone, IfSome, length, take};
ghost use Rattle.std.specs.Io.KnownBytes.{Appends, Keeps};

use std::fs::{Files, OpenOptions, remove_file};
use std::io::{Error, ErrorKind, Read, Write};

const TRIES: u32 = 1_000_000;

// Whether a call that failed is to be made again: a signal that interrupted it passes, and so does a full pipe that is set not to wait.
fn passes(error: &Error) -> bool {
    matches!(error.kind(), ErrorKind::Interrupted | ErrorKind::WouldBlock)
}

// Makes a call until it succeeds, or fails for good.
fn again<T: Drop, F: FnMut() -> Result<T, Error>>(mut call: F) -> Result<T, ErrorKind>
    requires { F.IsAlwaysCallable call }
{
    for _ in 0..TRIES {
        match call() {
            Err(error) if passes(&error) => {}
            done => return done.map_err(|error| error.kind()),
        }
    }
    Err(ErrorKind::TimedOut)
}

// Opens a file as it is asked, and hands it back, or why it can't be opened.
fn open_as<R: Files>(rt: &R, how: &OpenOptions, name: &str) -> Result<R::File, ErrorKind> {
    again(|| how.open(rt, name))
}

// Opens a file for reading.
pub(crate) fn open<R: Files>(rt: &R, name: &str) -> Result<R::File, ErrorKind> {
    let mut how = OpenOptions::new();
    how.read(true);
    open_as(rt, &how, name)
}

// Makes a file that is not there, open for writing.
pub(crate) fn create<R: Files>(rt: &R, name: &str) -> Result<R::File, ErrorKind> {
    let mut how = OpenOptions::new();
    how.write(true);
    how.create_new(true);
    open_as(rt, &how, name)
}

// Removes a file, and hands back whether it is gone.
pub(crate) fn unlink<R: Files>(rt: &R, name: &str) -> bool {
    again(|| remove_file(rt, name)).is_ok()
}

// Reads once, and hands back how many bytes came, or none if the read fails.
pub(crate) fn read<R: Read>(file: &mut R, buffer: &mut [u8]) -> Option<usize>
    ensures { IfSome result (λ n. n ≤ length buffer.new) }
{
    for _ in 0..TRIES {
        match file.read(buffer) {
            Err(error) if passes(&error) => {}
            done => return done.ok(),
        }
    }
    None
}

// Writes once, and hands back how many bytes went, or none if the write fails.
fn write<W: Write>(out: &mut W, bytes: &[u8]) -> Option<usize>
    ensures within { IfSome result (λ n. n ≤ length bytes.now) }
    ensures appended { IfSome result (λ n. Appends (W.contents out.old) (W.contents out.new) (take n bytes.now)) }
    ensures kept { IfNone result (Keeps (W.contents out.old) (W.contents out.new)) }
{
    for _ in 0..TRIES {
        match out.write(bytes) {
            Err(error) if passes(&error) => {}
            done => return done.ok(),
        }
    }
    None
}

// Writes bytes by one call. If it takes only a part, the rest follows from where it stopped, until a call fails. Hands back how many
// were taken.
pub fn write_all<W: Write>(out: &mut W, bytes: &[u8]) -> usize
    ensures within { result ≤ length bytes.now }
    ensures appended { Appends (W.contents out.old) (W.contents out.new) (take result bytes.now) }
{
    let mut n: usize = 0;
    while n < bytes.len() {
        match write(out, &bytes[n..]) {
            None | Some(0) => return n,
            Some(more) => n += more,
        }
    }
    n
}
