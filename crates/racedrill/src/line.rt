// The line that tells of a pair that was made.
ghost use Rattle.std.specs.Prelude.{◌≤◌};
ghost use Rattle.writer.specs.Buffer.{WrittenAt};
ghost use Rattle.racedrill.specs.Line.{drill_line};

use drill::Drilled;
use writer::Writer;

// Writes `DRILL,` and three numbers in front of a buffer, and hands back its length.
pub(crate) fn write_line(buffer: &mut [u8], drilled: Drilled) -> usize
    ensures line { WrittenAt buffer.old buffer.new 0 (drill_line drilled.next drilled.program drilled.split) result }
    ensures short { result ≤ 39 }
{
    let mut writer = Writer::new(buffer);
    writer.bytes(b"DRILL,");
    writer.numbers(&[drilled.next, drilled.program, drilled.split]);
    writer.position()
}
