// The program sheet, read into the work space: its lines, and then what they list.
#![tactic(auto)]

mod lines;

ghost use Rattle.std.specs.Prelude.{◌≡◌, ◌≤◌, length};
ghost use Rattle.workspace.specs.Layout.{work_size};
ghost use Rattle.program.specs.Sheet.{LineOne, LinesRead, ProgramIs};

use program_lines::CountLine;
use spec::Refusal;
use workspace::SIZE;

// The numbers of steps and of procedures of a program.
#[derive(Clone, Copy, PartialEq, Eq)]
pub struct Counts {
    pub steps: usize,
    pub procedures: usize,
}

// What stands behind line 1.
fn read_lines(text: &[u8], work: &mut [u32; SIZE], line_one: CountLine) -> Result<Counts, Refusal>
    requires { LineOne text.now line_one }
    ensures { LinesRead text.now line_one work.new result }
{
    let steps = workspace::index(line_one.steps);
    let procedures = workspace::index(line_one.procedures);
    let n = steps + procedures;
    let (stored, end) = lines::step_lines(text, work, line_one.heading, n, line_one.next)?;
    if !end.at_end(text) {
        let spare = end.line + 1;
        return Err(Refusal::ProgramLines(spare));
    }
    program_scopes::resolve(work, stored, procedures)?;
    Ok(Counts { steps, procedures })
}

// Reads a program sheet into the work space: the numbers of its steps and procedures, or the first refusal that it meets.
pub fn read(text: &[u8], work: &mut [u32]) -> Result<Counts, Refusal>
    requires { (length work.old ≡ work_size) × (length text.now ≤ 16384) }
    ensures { ProgramIs text.now work.old work.new result }
{
    let line_one = program_lines::count_line(text)?;
    read_lines(text, work.as_mut_array().unwrap(), line_one)
}
