// The map lines of the split sheet, into the work space, and the empty map after them.
ghost use Rattle.split_fields.specs.Answers.{AtLine};
ghost use Rattle.split.specs.Stored.{MapsRead, EmptyStored};

use lexer::Cursor;
use spec::{Header, Refusal};
use split_lines::map_line;
use workspace::{EMPTY_ROW, MAPS, SIZE, STRIDE};

// The map lines, from a cursor on: the cursor after them.
pub(crate) fn read_maps(
    text: &[u8],
    from: Cursor,
    header: Header,
    work: &mut [u32; SIZE],
) -> Result<Cursor, Refusal>
    requires { AtLine text.now from header }
    ensures { MapsRead text.now from header work.old work.new result }
{
    let mut cursor = from;
    for m in 0..header.maps {
        let first = MAPS + STRIDE * m;
        let past = first + header.locations;
        cursor = map_line(text, cursor, &mut work[first..past])?;
    }
    Ok(cursor)
}

// The empty map, after the last that a sheet can have: nothing of any location.
pub(crate) fn store_empty(work: &mut [u32; SIZE])
    ensures { EmptyStored work.old work.new }
{
    work[EMPTY_ROW..EMPTY_ROW + STRIDE].fill(0);
}
