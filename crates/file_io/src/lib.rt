// What the programs share of the outside: reading a sheet into a lent buffer, making a file, telling an outcome in one
// line, writing bytes to where they are to go. No contract of the kit says what a file holds. So what is to go in and out stands in the
// `requires` of the functions that meet the outside: which file is read into how much room, which bytes are a line.
#![tactic(auto)]

mod arguments;
mod making;
mod retry;

ghost use Rattle.std.specs.Prelude.{◌≡◌, ◌≤◌, length, take};
ghost use Rattle.spec.specs.Text.{bytes};
ghost use Rattle.answers.specs.Line.{output_line};
ghost use Rattle.file_io.specs.Files.{Within, NoFewer, ReadInto};

use answers::write_line;
pub use arguments::is_given;
pub use making::{Unmade, make_file, remove_file};
pub use retry::write_all;
use spec::Answer;
use std::fs::Files;
use std::io::{Read, Write};

// Reads from a file behind the bytes that the buffer holds, until the file ends, the buffer is full or a read fails. None if one fails;
// else:
// counted: what is handed back is how many bytes it holds now, and no fewer than it held;
// kept: those that it held stand where they stood.
pub fn fill<R: Read>(file: &mut R, buffer: &mut [u8], held: usize) -> Option<usize>
    requires { held ≤ length buffer.old }
    ensures counted { Within result (length buffer.new) × NoFewer held result }
    ensures kept { take held buffer.new ≡ take held buffer.old }
{
    let mut n = held;
    while n < buffer.len() {
        let more = retry::read(file, &mut buffer[n..])?;
        if more == 0 {
            break;
        }
        n += more;
    }
    Some(n)
}

// Reads one of the files by its name, into as much room as its text asks for, and hands back how many bytes of it stand in the buffer,
// or none if it can't be read.
fn read_file<R: Files>(rt: &R, name: &str, buffer: &mut [u8]) -> Option<usize>
    requires { ReadInto name.now (length buffer.old) }
    ensures { Within result (length buffer.new) }
{
    let mut file = retry::open(rt, name).ok()?;
    fill(&mut file, buffer, 0)
}

// Reads the program sheet. The buffer has room for one byte more than a sheet may have, so that a longer file is seen to be longer,
// and no more of it is read.
pub fn read_program<R: Files>(rt: &R, buffer: &mut [u8; 16385]) -> Option<usize>
    ensures within { Within result (length buffer.new) }
    ensures value { 16385 ≡ length buffer.new }
{
    read_file(rt, "program.txt", buffer)
}

// Reads the split sheet, with the same one byte more.
pub fn read_split<R: Files>(rt: &R, buffer: &mut [u8; 65537]) -> Option<usize>
    ensures within { Within result (length buffer.new) }
    ensures value { 65537 ≡ length buffer.new }
{
    read_file(rt, "split.txt", buffer)
}

// Opens a file that is read as it goes, and hands it back, or none.
fn open_file<R: Files>(rt: &R, name: &str) -> Option<R::File>
    requires { name.now ≡ bytes "trace.txt" }
{
    retry::open(rt, name).ok()
}

// Opens the trace, and hands it back, or none. A trace has no limit, and `fill` reads it part by part.
pub fn open_trace<R: Files>(rt: &R) -> Option<R::File> {
    open_file(rt, "trace.txt")
}

// Writes the line of an answer, or of none, to standard output by one call, so that no other program's line comes between its parts.
fn put_line<W: Write>(out: &mut W, line: &[u8], answer: Option<Answer>)
    requires { line.now ≡ output_line answer }
{
    write_all(out, line);
}

// Tells an answer, or that there is none, in its line, which is made first.
pub fn tell<W: Write>(out: &mut W, answer: Option<Answer>) {
    let mut line = [0u8; 64];
    let n = write_line(&mut line, answer);
    put_line(out, &line[..n], answer);
}
