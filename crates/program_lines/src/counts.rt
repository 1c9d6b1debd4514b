// Line 1 of a program sheet: its heading, and the numbers of steps and of procedures.
ghost use Rattle.std.specs.Prelude.{◌≡◌, ◌≤◌, length};
ghost use Rattle.spec.specs.Text.{look_up};
ghost use Rattle.spec.specs.Program.{program_headings};
ghost use Rattle.lexer.specs.Cursors.{Placed};
ghost use Rattle.program_lines.specs.Lines.{CountsAfter, CountShown};

use crate::tails::{last_number, last_pair};
use keywords::spelled;
use lexer::{Cursor, Span};
use spec::{ProgramHeading, Refusal};

// The most steps that a program may have.
const STEP_LIMIT: u32 = 256;

// The most procedures that a program may have.
const PROCEDURE_LIMIT: u32 = 16;

// What line 1 says, and the cursor after it.
#[derive(Clone, Copy, PartialEq, Eq)]
pub struct CountLine {
    pub heading: ProgramHeading,
    pub steps: u32,
    pub procedures: u32,
    pub next: Cursor,
}

// The heading that a field spells.
fn heading_of(field: &[u8]) -> Option<ProgramHeading>
    ensures { result ≡ look_up program_headings field.now }
{
    spelled(field, b"P", ProgramHeading::P).or(spelled(field, b"P2", ProgramHeading::P2))
}

// The numbers of steps and of procedures after the heading, `P,n` or `P2,n,k`, and the cursor after the line.
fn counts_after(text: &[u8], field: Span, heading: ProgramHeading) -> Option<(u32, u32, Cursor)>
    requires { Placed text.now field.next }
    ensures { CountsAfter text.now field heading result }
{
    match heading {
        ProgramHeading::P => {
            let (steps, next) = last_number(text, field)?;
            Some((steps, 0, next))
        }
        ProgramHeading::P2 => last_pair(text, field),
    }
}

// Line 1, `P,n` or `P2,n,k`.
pub fn count_line(text: &[u8]) -> Result<CountLine, Refusal>
    requires { length text.now ≤ 16384 }
    ensures { CountShown text.now result }
{
    let top = Cursor::start();
    if top.at_end(text) {
        return Err(Refusal::ProgramForm(1));
    }
    let field = top.field(text);
    let Some(heading) = heading_of(&text[field.from..field.to]) else {
        return Err(Refusal::ProgramForm(1));
    };
    let Some((steps, procedures, next)) = counts_after(text, field, heading) else {
        return Err(Refusal::ProgramForm(1));
    };
    if steps < 1 || STEP_LIMIT < steps || PROCEDURE_LIMIT < procedures {
        return Err(Refusal::ProgramRange(1));
    }
    Ok(CountLine {
        heading,
        steps,
        procedures,
        next,
    })
}
