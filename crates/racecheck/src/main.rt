// Reads `program.txt` and `split.txt` in the current folder and writes one line: `ACCEPT`, `REFUSE,` and four numbers, or
// `UNREAD`. The judging is in the library `checker`, the wording in `answers`; here is only what meets the outside.
#![tactic(auto)]

ghost use Rattle.std.specs.Prelude.{◌≡◌, length, Some};
ghost use Rattle.file_io.specs.Files.{Within, text_in};
ghost use Rattle.racecheck.specs.Told.{told, told_of};

use file_io::{is_given, read_program, read_split, tell, write_all};
use spec::Answer;
use std::fs::Files;

// Judges two texts in a work space of its own.
fn judge(program: &[u8], split: &[u8]) -> Answer
    ensures { told (Some result) ≡ told_of (Some program.now) (Some split.now) }
{
    let mut work = [0u32; 16384];
    checker::check(program, split, &mut work)
}

// What is told of the two files as they were read, each into its buffer: the answer to them, or none if one could not be read.
#[tactic(auto, unfolding(crate::specs::Told::told, crate::specs::Told::told_of))]
fn outcome_of(program: &[u8], p: Option<usize>, split: &[u8], s: Option<usize>) -> Option<Answer>
    requires { Within p (length program.now) × Within s (length split.now) }
    ensures { told result ≡ told_of (text_in p program.now) (text_in s split.now) }
{
    let m = p?;
    let n = s?;
    Some(judge(&program[..m], &split[..n]))
}

// Both files are read before anything is judged.
fn run<R: Files>(rt: &R) -> Option<Answer> {
    let mut program = [0u8; 16385];
    let mut split = [0u8; 65537];
    let p = read_program(rt, &mut program);
    let s = read_split(rt, &mut split);
    outcome_of(&program, p, &split, s)
}

// An argument is refused: who names a folder would take the answer for that folder's.
fn main(rt: HostRuntime) {
    let mut out = rt.stdout();
    if is_given(&rt, 1) {
        let mut err = rt.stderr();
        write_all(
            &mut err,
            b"usage: racecheck, with no argument, in a folder with program.txt and split.txt\n",
        );
        tell(&mut out, None);
        return;
    }
    tell(&mut out, run(&rt));
}
