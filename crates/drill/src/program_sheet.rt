// The program sheet of a practice pair.
ghost use Rattle.std.specs.Prelude.{◌-◌};
ghost use Rattle.writer.specs.Buffer.{Writes, WrittenAt};
ghost use Rattle.drill_theory.specs.Pair.{program_text};
ghost use Rattle.drill.specs.Lets.{let_text, lets_text};

use crate::Readers;
use writer::Writer;

// Writes a let that binds v, and the lines of its value.
fn write_let(writer: &mut Writer, value: &[u8], v: u64)
    ensures { Writes writer.old writer.new (let_text value.now v) }
{
    writer.bytes(b"let,");
    writer.field(v, b'\n');
    writer.bytes(value);
}

// Writes lets that bind the variables from the first up to the end, each with the same lines for its value.
fn write_lets(writer: &mut Writer, value: &[u8], first: u64, end: u64)
    ensures { Writes writer.old writer.new (lets_text value.now first (end - first)) }
{
    for v in first..end {
        write_let(writer, value, v);
    }
}

// Writes the program text of k readers, and hands back its length.
pub(crate) fn write_program(buffer: &mut [u8], readers: Readers) -> usize
    ensures { WrittenAt buffer.old buffer.new 0 (program_text readers.count) result }
{
    let k = readers.count;
    let spawned = 2 + k;
    let mut writer = Writer::new(buffer);
    writer.bytes(b"P,");
    writer.field(8 * k + 8, b'\n');
    writer.bytes(b"let,0\nref,0\nint,0\nlet,1\nnewtid,0\n");
    write_lets(&mut writer, b"spawn,0\nvar,1\nread,0\nvar,0\n", 2, spawned);
    write_lets(&mut writer, b"join,0\nvar,1\n", spawned, spawned + k);
    writer.bytes(b"write,0\nvar,0\nint,1\n");
    writer.position()
}
