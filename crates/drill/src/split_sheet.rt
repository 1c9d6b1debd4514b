// The split sheet of a practice pair.
ghost use Rattle.std.specs.Prelude.{[], ◌∷◌, ◌≤◌};
ghost use Rattle.text_theory.specs.Text.{text};
ghost use Rattle.writer.specs.Buffer.{Writes, WrittenAt};
ghost use Rattle.drill_theory.specs.Pair.{header, type_lines, row, start_row, falling_maps, spawn_rows, all_spawn_rows, join_rows, all_join_rows, split_text};

use crate::Readers;
use spec::{MapNumber, TypeNumber};
use writer::Writer;

// The three types of a pair, and the map that holds all.
const INT: TypeNumber = TypeNumber(0);

const REF: TypeNumber = TypeNumber(1);

const TID: TypeNumber = TypeNumber(2);

const FULL: MapNumber = MapNumber(0);

// Writes a row without a start.
fn write_row(writer: &mut Writer, t: TypeNumber, m: MapNumber)
    ensures { Writes writer.old writer.new (text (row t.0 m.0 ∷ [])) }
{
    writer.field(u64::from(t.0), b',');
    writer.field(u64::from(m.0), b',');
    writer.byte(b'\n');
}

// Writes a row with a start.
fn write_start_row(writer: &mut Writer, t: TypeNumber, m: MapNumber, s: MapNumber)
    ensures { Writes writer.old writer.new (text (start_row t.0 m.0 s.0 ∷ [])) }
{
    writer.field(u64::from(t.0), b',');
    writer.field(u64::from(m.0), b',');
    writer.field(u64::from(s.0), b'\n');
}

// Writes so many maps, the last of which holds 0.
fn write_maps(writer: &mut Writer, count: u64)
    ensures { Writes writer.old writer.new (text (falling_maps count)) }
{
    for n in (0..count).rev() {
        writer.field(n, b'\n');
    }
}

// Writes the rows of a spawn with map m before it.
fn write_spawn_rows(writer: &mut Writer, share: MapNumber, m: MapNumber)
    requires { m.0 ≤ 31 }
    ensures { Writes writer.old writer.new (text (spawn_rows share.0 m.0)) }
{
    write_row(writer, INT, FULL);
    write_start_row(writer, INT, MapNumber(m.0 + 1), share);
    write_row(writer, TID, m);
    write_row(writer, INT, share);
    write_row(writer, REF, share);
}

// Writes the rows of so many spawns, the first with map 0 before it.
fn write_all_spawn_rows(writer: &mut Writer, share: MapNumber, count: u64)
    requires { count ≤ 31 }
    ensures { Writes writer.old writer.new (text (all_spawn_rows share.0 0 count)) }
{
    for m in 0..count {
        write_spawn_rows(writer, share, MapNumber(m as u32));
    }
}

// Writes the rows of a join with map m behind it.
fn write_join_rows(writer: &mut Writer, m: MapNumber)
    requires { m.0 ≤ 31 }
    ensures { Writes writer.old writer.new (text (join_rows m.0)) }
{
    write_row(writer, INT, FULL);
    write_row(writer, INT, m);
    write_row(writer, TID, MapNumber(m.0 + 1));
}

// Writes the rows of so many joins, the last with map 0 behind it.
fn write_all_join_rows(writer: &mut Writer, count: u64)
    requires { count ≤ 31 }
    ensures { Writes writer.old writer.new (text (all_join_rows count)) }
{
    for m in (0..count).rev() {
        write_join_rows(writer, MapNumber(m as u32));
    }
}

// Writes the header and the type lines of k readers.
fn write_head(writer: &mut Writer, readers: Readers)
    ensures { Writes writer.old writer.new (text (header readers.count ∷ type_lines readers.count)) }
{
    let k = readers.count;
    writer.bytes(b"C,");
    writer.field(k, b',');
    writer.bytes(b"1,3,");
    writer.field(k + 1, b'\n');
    writer.bytes(b"int,0,0\nref,0,0\ntid,");
    writer.field(k - 1, b',');
    writer.bytes(b"0\n");
}

// Writes the split text of k readers, and hands back its length.
pub(crate) fn write_split(buffer: &mut [u8], readers: Readers) -> usize
    ensures { WrittenAt buffer.old buffer.new 0 (split_text readers.count) result }
{
    let k = readers.count;
    let share = MapNumber((k - 1) as u32);
    let mut writer = Writer::new(buffer);
    write_head(&mut writer, readers);
    write_maps(&mut writer, k + 1);
    writer.bytes(b"0,0,\n1,0,\n0,0,\n0,0,\n2,0,\n");
    write_all_spawn_rows(&mut writer, share, k);
    write_all_join_rows(&mut writer, k);
    writer.bytes(b"0,0,\n1,0,\n0,0,\n");
    writer.position()
}
