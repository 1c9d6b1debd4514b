// A line after line 1 of a program sheet: that of a step or a `proc` line.
ghost use Rattle.std.specs.Prelude.{◌≡◌, Err};
ghost use Rattle.lexer.specs.Cursors.{Placed};
ghost use Rattle.program_lines.specs.Lines.{FreelockAt, ProcAt, WordAt, item_at, StepShown};

use crate::tails::last_number;
use keywords::{least_of, limit_of, same, word_under};
use lexer::{Cursor, Span};
use spec::{ProgramHeading, Refusal, Word};

// The largest number of a variable.
const VARIABLE_LIMIT: u32 = 255;

// The refusal of the line at the cursor, whose first field is the word `freelock`: 45, once form and range are right.
fn freelock_line(text: &[u8], heading: ProgramHeading, cursor: Cursor, field: Span) -> Refusal
    requires { FreelockAt text.now cursor field }
    ensures { item_at text.now heading cursor ≡ Err result }
{
    let line = cursor.line + 1;
    match last_number(text, field) {
        None => Refusal::ProgramForm(line),
        Some((0, _)) => Refusal::Freelock(line),
        Some(_) => Refusal::ProgramRange(line),
    }
}

// A step, its word and its number, or a `proc` line and its variable; and the cursor after the line.
#[derive(Clone, Copy, PartialEq, Eq)]
pub enum StepLine {
    Step(Word, u32, Cursor),
    Proc(u32, Cursor),
}

// The line at the cursor, whose first field is the word `proc`: `proc,x` in a `P2` sheet, nothing in a `P` sheet.
fn proc_line(
    text: &[u8],
    heading: ProgramHeading,
    cursor: Cursor,
    field: Span,
) -> Result<StepLine, Refusal>
    requires { ProcAt text.now cursor field }
    ensures { StepShown text.now heading cursor result }
{
    let line = cursor.line + 1;
    let ProgramHeading::P2 = heading else {
        return Err(Refusal::ProgramForm(line));
    };
    let Some((variable, next)) = last_number(text, field) else {
        return Err(Refusal::ProgramForm(line));
    };
    if VARIABLE_LIMIT < variable {
        return Err(Refusal::ProgramRange(line));
    }
    Ok(StepLine::Proc(variable, next))
}

// The line at the cursor, whose first field is a word of a step: the number after it, and its range.
fn word_line(
    text: &[u8],
    heading: ProgramHeading,
    cursor: Cursor,
    field: Span,
    word: Word,
) -> Result<StepLine, Refusal>
    requires { WordAt text.now heading cursor field word }
    ensures { StepShown text.now heading cursor result }
{
    let line = cursor.line + 1;
    let Some((value, next)) = last_number(text, field) else {
        return Err(Refusal::ProgramForm(line));
    };
    if value < least_of(word) || limit_of(word) < value {
        return Err(Refusal::ProgramRange(line));
    }
    Ok(StepLine::Step(word, value, next))
}

// The line at the cursor, `word,v` or `proc,x`.
pub fn step_line(text: &[u8], heading: ProgramHeading, cursor: Cursor) -> Result<StepLine, Refusal>
    requires { Placed text.now cursor }
    ensures { StepShown text.now heading cursor result }
{
    if cursor.at_end(text) {
        return Err(Refusal::ProgramLines(cursor.line));
    }
    let field = cursor.field(text);
    let spelling = &text[field.from..field.to];
    if same(spelling, b"freelock") {
        return Err(freelock_line(text, heading, cursor, field));
    }
    if same(spelling, b"proc") {
        return proc_line(text, heading, cursor, field);
    }
    let Some(word) = word_under(spelling, heading) else {
        return Err(Refusal::ProgramForm(cursor.line + 1));
    };
    word_line(text, heading, cursor, field, word)
}
