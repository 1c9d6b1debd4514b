// Reads `program.txt` and `split.txt` in the current folder, a split whose step lines leave their maps out, and writes the whole
// sheet, or one line: `REFUSE,` and four numbers, or `UNREAD`. The filling is in the library `fill`, the wording in `answers`; here
// is only what meets the outside.
#![tactic(auto)]

ghost use Rattle.std.specs.Prelude.{◌≡◌, length};
ghost use Rattle.spec.specs.Split.{split_limit};
ghost use Rattle.spec.specs.Workspace.{workspace_size};
ghost use Rattle.fill_theory.specs.Answer.{fill as filling};
ghost use Rattle.file_io.specs.Files.{Within, text_in, InFront};
ghost use Rattle.racefill.specs.Output.{output_of, output_for};

use answers::write_line;
use file_io::{is_given, read_program, read_split, tell, write_all};
use fill::fill;
use spec::Answer;
use std::fs::Files;
use std::io::Write;

// Makes what is written for two texts, in front of a buffer that has room for any sheet, and hands back its length.
fn fill_texts(program: &[u8], split: &[u8], out: &mut [u8]) -> usize
    requires { length out.old ≡ split_limit }
    ensures { InFront (output_of (filling workspace_size split_limit program.now split.now)) result out.new }
{
    let mut work = [0u32; 16384];
    match fill(program, split, &mut work, out) {
        Ok(length) => length as usize,
        Err(refusal) => write_line(out, Some(Answer::Refuse(refusal))),
    }
}

// Makes what is written for the two files as they were read, each into its buffer.
fn output_of(
    program: &[u8],
    p: Option<usize>,
    split: &[u8],
    s: Option<usize>,
    out: &mut [u8],
) -> usize
    requires { Within p (length program.now) × Within s (length split.now) × (length out.old ≡ split_limit) }
    ensures { InFront (output_for (text_in p program.now) (text_in s split.now)) result out.new }
{
    let (Some(m), Some(n)) = (p, s) else {
        return write_line(out, None);
    };
    fill_texts(&program[..m], &split[..n], out)
}

// Writes what was made for the two files, and no other bytes. A sheet or a line that standard output does not take to its end is not
// to be taken for a whole one.
fn write_output<W: Write, E: Write>(
    out: &mut W,
    err: &mut E,
    program: &[u8],
    p: Option<usize>,
    split: &[u8],
    s: Option<usize>,
    output: &[u8],
)
    requires { output.now ≡ output_for (text_in p program.now) (text_in s split.now) }
{
    if write_all(out, output) < output.len() {
        write_all(
            err,
            b"racefill: standard output did not take all that was written\n",
        );
    }
}

// Both files are read before anything is filled.
fn run<R: Files, W: Write, E: Write>(rt: &R, out: &mut W, err: &mut E) {
    let mut program = [0u8; 16385];
    let mut split = [0u8; 65537];
    let p = read_program(rt, &mut program);
    let s = read_split(rt, &mut split);
    let mut made = [0u8; 65536];
    let n = output_of(&program, p, &split, s, &mut made);
    write_output(out, err, &program, p, &split, s, &made[..n]);
}

// An argument is refused: who names a folder would take the sheet for that folder's.
fn main(rt: HostRuntime) {
    let mut out = rt.stdout();
    let mut err = rt.stderr();
    if is_given(&rt, 1) {
        write_all(
            &mut err,
            b"usage: racefill, with no argument, in a folder with program.txt and split.txt\n",
        );
        tell(&mut out, None);
        return;
    }
    run(&rt, &mut out, &mut err);
}
