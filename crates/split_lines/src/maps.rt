// The map line of a split sheet.
ghost use Rattle.std.specs.Prelude.{◌≡◌, length};
ghost use Rattle.spec.specs.Reading.{split_sheet, read_line};
ghost use Rattle.lexer.specs.Cursors.{place_at};
ghost use Rattle.split_fields.specs.Answers.{SplitCursor};
ghost use Rattle.split_lines.specs.TypeLines.{cells_fit, cell_line};
ghost use Rattle.split_lines.specs.TypeAnswers.{MapAnswer};

use lexer::Cursor;
use spec::Refusal;
use split_fields::LARGEST;

// Whether no number of a map is larger than a map can have.
#[tactic(auto, unfolding(crate::specs::TypeLines::cells_fit))]
fn cells_fit(map: &[u32]) -> bool
    ensures { result ≡ cells_fit map.now }
{
    map.iter().all(|cell| *cell <= LARGEST)
}

// The map line at a cursor, into as many places as there are locations. A line that is refused leaves any numbers in them.
#[tactic(auto, using(split_fields::proofs::LineLaws::no_line, crate::proofs::MapLaws::map_malformed))]
pub fn map_line(text: &[u8], cursor: Cursor, into: &mut [u32]) -> Result<Cursor, Refusal>
    requires { SplitCursor text.now cursor }
    ensures { MapAnswer text.now into.new (read_line split_sheet (cell_line (length into.old)) (place_at text.now cursor)) result }
{
    if cursor.at_end(text) {
        return Err(Refusal::SplitLines(cursor.line));
    }
    let line = cursor.line + 1;
    let next = cursor.numbers(text, into).ok_or(Refusal::SplitForm(line))?;
    if !cells_fit(into) {
        return Err(Refusal::SplitRange(line));
    }
    Ok(next)
}
