// Both sheets, read in turn into the work space: what a check and a filling begin with.
#![tactic(auto)]

ghost use Rattle.std.specs.Prelude.{◌≡◌, length};
ghost use Rattle.workspace.specs.Layout.{work_size};
ghost use Rattle.sheets.specs.Answers.{ProgramHeld, SplitAnswered, SheetsAnswered};

use program::Counts;
use spec::{Header, Purpose, Refusal};

// The most bytes that each sheet may have.
const PROGRAM_LIMIT: usize = 16384;

const SPLIT_LIMIT: usize = 65536;

// The numbers of steps and procedures, and the header, of the sheets that the work space holds.
#[derive(Clone, Copy, PartialEq, Eq)]
pub struct Held {
    pub steps: usize,
    pub procedures: usize,
    pub header: Header,
}

// 20 and on, for the program that the work space holds.
fn read_split(
    split: &[u8],
    purpose: Purpose,
    counts: Counts,
    work: &mut [u32],
) -> Result<Held, Refusal>
    requires { ProgramHeld work.old counts.steps counts.procedures }
    ensures { SplitAnswered purpose split.now counts.steps counts.procedures work.old work.new result }
{
    if SPLIT_LIMIT < split.len() {
        return Err(Refusal::LongSplit);
    }
    let Counts { steps, procedures } = counts;
    let header = split::read(split, purpose, steps, procedures, work)?;
    Ok(Held {
        steps,
        procedures,
        header,
    })
}

// Reads both sheets into the work space, to check or to fill: what they say, or the first reason to refuse one of them.
pub fn read(
    program: &[u8],
    split: &[u8],
    purpose: Purpose,
    work: &mut [u32],
) -> Result<Held, Refusal>
    requires { length work.old ≡ work_size }
    ensures { SheetsAnswered purpose program.now split.now work.new result }
{
    if PROGRAM_LIMIT < program.len() {
        return Err(Refusal::LongProgram);
    }
    let counts = program::read(program, work)?;
    read_split(split, purpose, counts, work)
}
