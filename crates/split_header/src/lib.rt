// Line 1 of the split sheet, its header: `C,D,L,T,M`, `C2,D,L,T,M,r` or `C3,D,L,T,M,r`, with its ranges.
#![tactic(auto)]

ghost use Rattle.std.specs.Prelude.{◌≡◌};
ghost use Rattle.spec.specs.Text.{look_up};
ghost use Rattle.spec.specs.Reading.{split_sheet, read_line};
ghost use Rattle.spec.specs.Split.{headings, header_line};
ghost use Rattle.lexer.specs.Cursors.{place_at};
ghost use Rattle.split_fields.specs.Answers.{SplitCursor};
ghost use Rattle.split_header.specs.Header.{numerals_of, header_fits, AtHeader, NumbersAnswer, HeaderAnswer};

use keywords::spelled;
use lexer::Cursor;
use spec::{Header, Heading, MapNumber, Purpose, Refusal};
use split_fields::{LARGEST, first_field};

// How many locations, types and maps a sheet can have.
const MOST_LOCATIONS: usize = 16;

const MOST_TYPES: usize = 64;

const MOST_MAPS: usize = 512;

// The heading that a field spells in a sheet that is read for this purpose: when filling, "A `C` header is 21".
fn heading_of(field: &[u8], purpose: Purpose) -> Option<Heading>
    ensures { result ≡ look_up (headings purpose) field.now }
{
    let newer = spelled(field, b"C2", Heading::C2).or(spelled(field, b"C3", Heading::C3));
    match purpose {
        Purpose::Check => spelled(field, b"C", Heading::C).or(newer),
        Purpose::Fill => newer,
    }
}

// How many numerals follow a heading.
#[tactic(auto, unfolding(crate::specs::Header::numerals_of, spec::specs::Split::header_ranges))]
fn numerals_of(heading: Heading) -> usize
    ensures { result ≡ numerals_of heading }
{
    match heading {
        Heading::C => 4,
        Heading::C2 | Heading::C3 => 5,
    }
}

// The numerals after a heading. Where none names the start, it is map 0.
fn header_numbers(text: &[u8], cursor: Cursor, heading: Heading) -> Option<(Header, Cursor)>
    requires { SplitCursor text.now cursor }
    ensures { NumbersAnswer text.now cursor heading result }
{
    let mut found = [0u32; 5];
    let count = numerals_of(heading);
    let next = cursor.numbers(text, &mut found[..count])?;
    let [denominator, locations, types, maps, start] = found;
    let header = Header {
        heading,
        denominator,
        locations: workspace::index(locations),
        types: workspace::index(types),
        maps: workspace::index(maps),
        start: MapNumber(start),
    };
    Some((header, next))
}

// Whether each number of a header is in its range; the start is one of its maps.
#[tactic(auto, unfolding(crate::specs::Header::header_fits, spec::specs::Split::header_ranges, spec::specs::Reading::all_in_range, spec::specs::Reading::in_range))]
fn header_fits(header: Header) -> bool
    ensures { result ≡ header_fits header }
{
    (1..=LARGEST).contains(&header.denominator)
        && (1..=MOST_LOCATIONS).contains(&header.locations)
        && (1..=MOST_TYPES).contains(&header.types)
        && (1..=MOST_MAPS).contains(&header.maps)
        && workspace::index(header.start.0) < header.maps
}

// The header at a cursor.
#[tactic(auto, using(crate::proofs::HeaderLaws::line))]
pub fn header_line(
    text: &[u8],
    cursor: Cursor,
    purpose: Purpose,
) -> Result<(Header, Cursor), Refusal>
    requires { AtHeader text.now cursor }
    ensures { HeaderAnswer text.now (read_line split_sheet (header_line purpose) (place_at text.now cursor)) result }
{
    let line = cursor.line + 1;
    let form = Refusal::SplitForm(line);
    let (field, numbers) = first_field(text, cursor).ok_or(form)?;
    let heading = heading_of(field, purpose).ok_or(form)?;
    let (header, next) = header_numbers(text, numbers, heading).ok_or(form)?;
    if !header_fits(header) {
        return Err(Refusal::SplitRange(line));
    }
    Ok((header, next))
}
