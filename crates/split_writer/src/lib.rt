// Writing a whole split sheet: the split that the work space holds, line by line, into a lent buffer.
#![tactic(auto)]

ghost use Rattle.std.specs.Prelude.{◌≡◌, [], ◌∷◌, ◌++◌, map, ◌*◌, ◌+◌, ◌≤◌, ◌<◌, length};
ghost use Rattle.workspace.specs.Layout.{starts_at, maps_at, stride};
ghost use Rattle.text_theory.specs.Text.{decimal, line, text};
ghost use Rattle.writer.specs.Buffer.{Writes};
ghost use Rattle.text_theory.specs.Sheet.{header_fields, out_number, type_fields, map_fields, signature_fields, row_fields};
ghost use Rattle.spec.specs.declared.Purpose.TheVariants.{Check};
ghost use Rattle.split_writer.specs.Stored.{in_order, type_stored, map_in, signature_in, row_in};
ghost use Rattle.split_writer.specs.Contract.{HoldsSome, SheetWritten};

use spec::{Header, Heading, MapNumber, TypeLine, TypeNumber};
use workspace::{
    EMPTY_MAP, MAPS, POSTS, ROW_TYPES, SIG_AFTERS, SIG_ARGUMENTS, SIG_BEFORES, SIG_RESULTS, STARTS,
    STRIDE, at, type_at,
};
use writer::Writer;

// Writes the header.
fn write_header(writer: &mut Writer, header: Header)
    requires { (header.locations < 4294967296) × (header.types < 4294967296) × (header.maps < 4294967296) }
    ensures { Writes writer.old writer.new (text (header_fields header ∷ [])) }
{
    let numbers = [
        header.denominator,
        header.locations as u32,
        header.types as u32,
        header.maps as u32,
        header.start.0,
    ];
    match header.heading {
        Heading::C => {
            writer.bytes(b"C,");
            writer.numbers(&numbers[..4]);
        }
        Heading::C2 => {
            writer.bytes(b"C2,");
            writer.numbers(&numbers);
        }
        Heading::C3 => {
            writer.bytes(b"C3,");
            writer.numbers(&numbers);
        }
    }
}

// The third number of a lock line: its out, where the heading has it.
#[tactic(auto, unfolding(text_theory::specs::Sheet::out_number))]
fn out_number(heading: Heading, out: MapNumber) -> u32
    ensures { result ≡ out_number heading out }
{
    match heading {
        Heading::C | Heading::C2 => 0,
        Heading::C3 => out.0,
    }
}

// Writes a type line by its parts: its word with the comma, and two numbers.
fn write_word(writer: &mut Writer, word: &[u8], first: u32, second: u32)
    ensures { Writes writer.old writer.new (word.now ++ line (map decimal (first ∷ second ∷ [])) []) }
{
    writer.bytes(word);
    writer.numbers(&[first, second]);
}

// Writes a type line of a sheet with this heading.
fn write_type(writer: &mut Writer, heading: Heading, of: TypeLine)
    ensures { Writes writer.old writer.new (text (type_fields heading of ∷ [])) }
{
    match of {
        TypeLine::Int => write_word(writer, b"int,", 0, 0),
        TypeLine::Ref(place, content) => write_word(writer, b"ref,", place.0, content.0),
        TypeLine::Lock(load, out) => {
            write_word(writer, b"lock,", load.0, out_number(heading, out))
        }
        TypeLine::Tid(load) => write_word(writer, b"tid,", load.0, 0),
        TypeLine::Sem(load) => write_word(writer, b"sem,", load.0, 0),
        TypeLine::Rwlock(read, write) => write_word(writer, b"rwlock,", read.0, write.0),
    }
}

// Writes the lines of so many types of a sheet with this heading.
fn write_types(writer: &mut Writer, work: &[u32], heading: Heading, types: usize)
    requires { types < 4294967296 }
    ensures { Writes writer.old writer.new (text (map (type_fields heading) (in_order (type_stored work.now) 0 types))) }
{
    for t in 0..types {
        write_type(writer, heading, type_at(work, TypeNumber(t as u32)));
    }
}

// Writes the lines of so many maps, each with a number for each location.
fn write_maps(writer: &mut Writer, work: &[u32], locations: usize, maps: usize)
    requires { (locations ≤ 16) × (maps_at + stride * maps ≤ length work.now) }
    ensures { Writes writer.old writer.new (text (map map_fields (in_order (map_in locations work.now) 0 maps))) }
{
    for m in 0..maps {
        let first = MAPS + STRIDE * m;
        let past = first + locations;
        writer.numbers(&work[first..past]);
    }
}

// Writes the line of a procedure.
fn write_signature(writer: &mut Writer, work: &[u32], f: usize)
    requires { f < 4294967296 }
    ensures { Writes writer.old writer.new (text (signature_fields (signature_in work.now f) ∷ [])) }
{
    writer.numbers(&[
        at(work, SIG_BEFORES + f),
        at(work, SIG_ARGUMENTS + f),
        at(work, SIG_AFTERS + f),
        at(work, SIG_RESULTS + f),
    ]);
}

// Writes the lines of so many procedures.
fn write_signatures(writer: &mut Writer, work: &[u32], procedures: usize)
    requires { procedures < 4294967296 }
    ensures { Writes writer.old writer.new (text (map signature_fields (in_order (signature_in work.now) 0 procedures))) }
{
    for f in 0..procedures {
        write_signature(writer, work, f);
    }
}

// Writes the row of a step.
fn write_row(writer: &mut Writer, work: &[u32], step: usize)
    requires { starts_at + step < length work.now }
    ensures { Writes writer.old writer.new (text (row_fields Check (row_in work.now step) ∷ [])) }
{
    writer.field(u64::from(at(work, ROW_TYPES + step)), b',');
    writer.field(u64::from(at(work, POSTS + step)), b',');
    let start = at(work, STARTS + step);
    if start == EMPTY_MAP {
        return writer.byte(b'\n');
    }
    writer.field(u64::from(start), b'\n');
}

// Writes the rows of so many steps.
fn write_rows(writer: &mut Writer, work: &[u32], steps: usize)
    requires { starts_at + steps ≤ length work.now }
    ensures { Writes writer.old writer.new (text (map (row_fields Check) (in_order (row_in work.now) 0 steps))) }
{
    for step in 0..steps {
        write_row(writer, work, step);
    }
}

// Writes the sheet of the split that the work space holds, with this header, a line for each procedure and a row for each step, at the
// front of a buffer, and hands back its length.
pub fn write_sheet(
    buffer: &mut [u8],
    work: &[u32],
    header: Header,
    procedures: usize,
    steps: usize,
) -> usize
    requires { HoldsSome work.now header procedures steps }
    ensures { SheetWritten work.now header procedures steps buffer.old buffer.new result }
{
    let mut writer = Writer::new(buffer);
    write_header(&mut writer, header);
    write_types(&mut writer, work, header.heading, header.types);
    write_maps(&mut writer, work, header.locations, header.maps);
    write_signatures(&mut writer, work, procedures);
    write_rows(&mut writer, work, steps);
    writer.position()
}
