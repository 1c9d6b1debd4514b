// The line that `racecheck` writes, as document 01 words it, made in a lent buffer.
ghost use Rattle.std.specs.Prelude.{◌≤◌, length};
ghost use Rattle.writer.specs.Buffer.{Writes, WrittenAt};
ghost use Rattle.answers.specs.Line.{answer_line, output_line};

use crate::refusal_numbers;
use spec::Answer;
use writer::Writer;

fn write_answer(writer: &mut Writer, answer: Answer)
    ensures written { Writes writer.old writer.new (answer_line answer) }
    ensures short { length (answer_line answer) ≤ 51 }
{
    match answer {
        Answer::Accept => writer.bytes(b"ACCEPT\n"),
        Answer::Refuse(refusal) => {
            let four = refusal_numbers(refusal);
            writer.bytes(b"REFUSE,");
            writer.numbers(&[four.number, four.line, four.condition, four.location]);
        }
    }
}

fn write_outcome(writer: &mut Writer, answer: Option<Answer>)
    ensures written { Writes writer.old writer.new (output_line answer) }
    ensures short { length (output_line answer) ≤ 51 }
{
    match answer {
        Some(answer) => write_answer(writer, answer),
        None => writer.bytes(b"UNREAD\n"),
    }
}

// Writes the line in front of a buffer, of the answer to the pair of sheets, or of none where they can't be read, and hands back its
// length.
pub fn write_line(buffer: &mut [u8], answer: Option<Answer>) -> usize
    ensures line { WrittenAt buffer.old buffer.new 0 (output_line answer) result }
    ensures short { result ≤ 51 }
{
    let mut writer = Writer::new(buffer);
    write_outcome(&mut writer, answer);
    writer.position()
}
