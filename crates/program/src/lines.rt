// The lines behind line 1 of a program sheet: steps and `proc` lines, stored in the work space in line order.
ghost use Rattle.std.specs.Prelude.{◌≤◌};
ghost use Rattle.lexer.specs.Cursors.{Placed};
ghost use Rattle.workspace.specs.Layout.{step_room};
ghost use Rattle.program.specs.Lines.{StepsShown};

use lexer::Cursor;
use program_lines::{StepLine, step_line};
use program_tree::Stored;
use spec::{ProgramHeading, Refusal};
use workspace::{LINES, PROC_FIRSTS, PROC_LINES, PROC_VARS, SIZE, VALUES, WORDS};

// The n lines from the cursor on, steps and `proc` lines each stored in line order; and the cursor behind them.
pub(crate) fn step_lines(
    text: &[u8],
    work: &mut [u32; SIZE],
    heading: ProgramHeading,
    n: usize,
    start: Cursor,
) -> Result<(Stored, Cursor), Refusal>
    requires { (n ≤ step_room) × Placed text.now start }
    ensures { StepsShown text.now heading n start work.old work.new result }
{
    let mut cursor = start;
    let mut steps = 0;
    let mut procs = 0;
    for _ in 0..n {
        let line = step_line(text, heading, cursor)?;
        match line {
            StepLine::Step(word, v, next) => {
                work[WORDS + steps] = workspace::code_of(word);
                work[VALUES + steps] = v;
                work[LINES + steps] = next.line;
                steps += 1;
                cursor = next;
            }
            StepLine::Proc(x, next) => {
                work[PROC_LINES + procs] = next.line;
                work[PROC_VARS + procs] = x;
                work[PROC_FIRSTS + procs] = steps as u32;
                procs += 1;
                cursor = next;
            }
        }
    }
    let stored = Stored {
        steps,
        procs,
        last: cursor.line,
    };
    Ok((stored, cursor))
}
