// The numbers after the first field of a line of a program sheet.
ghost use Rattle.lexer.specs.Cursors.{Placed};
ghost use Rattle.program_lines.specs.Lines.{TailShown, PairShown};

use lexer::{Cursor, FieldEnd, Number, Span};

// The number after a line's first field and the cursor after the line, if the line ends with that number.
pub(crate) fn last_number(text: &[u8], field: Span) -> Option<(u32, Cursor)>
    requires { Placed text.now field.next }
    ensures { TailShown text.now field result }
{
    let FieldEnd::Comma = field.end else {
        return None;
    };
    let Number { value, end, next } = field.next.number(text)?;
    match end {
        FieldEnd::Newline => Some((lexer::narrow(value), next)),
        FieldEnd::Comma => None,
        FieldEnd::Text => None,
    }
}

// The two numbers after a line's first field and the cursor after the line, if the line ends with them.
pub(crate) fn last_pair(text: &[u8], field: Span) -> Option<(u32, u32, Cursor)>
    requires { Placed text.now field.next }
    ensures { PairShown text.now field result }
{
    let FieldEnd::Comma = field.end else {
        return None;
    };
    let mut numbers = [0; 2];
    let next = field.next.numbers(text, &mut numbers)?;
    Some((numbers[0], numbers[1], next))
}
