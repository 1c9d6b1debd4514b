// Runs the library on the known pairs of document 01 and on every edge row of the specification, and looks at the work space
// after each check. The file `stdin` has the rows of the tables `starred`, `sheet_edges`, `condition_edges`, `agreement_edges`,
// `number_edges`, `start_edges`, `semaphore_edges`, `spawn_edges`, `lock_edges`, `freelock_edges`, `rwlock_edges` and `procedure_edges`
// in that order, and `stdout` the answers that these tables are proved to have. It promises nothing, so it has no edits: a wrong checker is
// one of `checker` and of what that stands on.
//
// A line of the input is a program, a tab and a split; in both texts a bar stands for byte 10. The first 131,072 bytes of the
// input are read, and that is the one limit on the length of a line.
#![tactic(auto)]

ghost use Rattle.std.specs.Prelude.{◌≤◌, length};

use spec::Answer;
use std::io::Read;

// How many numbers document 01 asks of a work space.
const SIZE: usize = 16384;

// What every number of a work space is before a check: not 0, so that one that was cleared is told from one that was not.
const MARK: u32 = 7;

// How long the first line of a text is, without its byte 10.
fn line_length(text: &[u8]) -> usize
    ensures { result ≤ length text.now }
{
    text.iter()
        .position(|byte| *byte == b'\n')
        .unwrap_or(text.len())
}

// Every bar of the text becomes byte 10.
fn unbar(text: &mut [u8]) {
    for byte in text {
        if *byte == b'|' {
            *byte = b'\n';
        }
    }
}

// Whether every number of the slice is `x`.
fn all_are(numbers: &[u32], x: u32) -> bool {
    numbers.iter().all(|number| *number == x)
}

// What a check did to a work space of marks. Document 01 wants the first 16,384 numbers to be 0, and those behind them to hold the mark; in
// a shorter one nothing is to change.
fn state(work: &[u32]) -> &'static str {
    match work.split_at_checked(SIZE) {
        Some((front, behind)) => {
            if all_are(front, 0) && all_are(behind, MARK) {
                "cleared"
            } else {
                "not cleared"
            }
        }
        None => {
            if all_are(work, MARK) {
                "kept"
            } else {
                "changed"
            }
        }
    }
}

// The answer to the pair on a line. A line with no tab is a program beside an empty split.
fn answer_to(line: &[u8], work: &mut [u32]) -> Answer {
    match line.iter().position(|byte| *byte == b'\t') {
        Some(tab) => checker::check(&line[..tab], &line[tab + 1..], work),
        None => checker::check(line, b"", work),
    }
}

// Checks the pair on a line in a work space of marks. Writes a line: the four numbers that the answer returns, parted by commas, and what
// became of the work space.
fn run_in<P: Print>(rt: &P, line: &[u8], work: &mut [u32]) {
    let four = answers::numbers_of(answer_to(line, work));
    let state = state(work);
    let _ = println!(rt;
        "{},{},{},{} {state}",
        four.number, four.line, four.condition, four.location
    );
}

// Checks the pair on a line whose bars are still bars, in a work space with 16 numbers more than document 01 asks for.
fn run_line<P: Print>(rt: &P, line: &mut [u8]) {
    unbar(line);
    run_in(rt, line, &mut [MARK; SIZE + 16]);
}

// Checks every pair of the text in turn. A last line with no byte 10 counts too.
fn run_lines<P: Print>(rt: &P, text: &mut [u8]) {
    for line in text.split_inclusive_mut(|byte| *byte == b'\n') {
        let end = line_length(line);
        run_line(rt, &mut line[..end]);
    }
}

// Every pair, then the first of them again in a work space just long enough and in one that is too short.
fn run<P: Print>(rt: &P, text: &mut [u8]) {
    let first = line_length(text);
    run_lines(rt, text);
    run_in(rt, &text[..first], &mut [MARK; SIZE]);
    run_in(rt, &text[..first], &mut [MARK; SIZE - 1]);
}

// Reads until the buffer is full, the input ends or a read fails, and hands back how many bytes stand in front of the buffer.
fn read_full<R: Read>(input: &mut R, buffer: &mut [u8]) -> usize
    ensures { result ≤ length buffer.new }
{
    let mut done = 0;
    while done < buffer.len() {
        match input.read(&mut buffer[done..]) {
            Ok(0) | Err(_) => return done,
            Ok(n) => done += n,
        }
    }
    done
}

fn main(rt: HostRuntime) {
    let mut input = [0u8; 131072];
    let n = read_full(&mut rt.stdin(), &mut input);
    run(&rt, &mut input[..n]);
}
