// The line that `racereplay` writes, made in a lent buffer.
ghost use Rattle.std.specs.Prelude.{[], ◌≤◌, length};
ghost use Rattle.text_theory.specs.Text.{line};
ghost use Rattle.writer.specs.Buffer.{Writes, WrittenAt};
ghost use Rattle.replay_answers.specs.Line.{race_fields, ran_fields, number_fields, refused_fields, opened, output_line};

use crate::ending_numbers;
use replay_theory::{Ending, Numbers, Race, Replayed, Report};
use writer::Writer;

// The state of a race and its two threads, which close a line.
fn write_race(writer: &mut Writer, race: Race)
    ensures { Writes writer.old writer.new (line (race_fields race) []) }
{
    writer.field(race.state as u64, b',');
    writer.field(u64::from(race.lower), b',');
    writer.field(u64::from(race.other), b'\n');
}

// The line of a trace that is done.
fn write_ran(writer: &mut Writer, report: Report)
    ensures written { Writes writer.old writer.new (line (ran_fields report) []) }
    ensures short { length (line (ran_fields report) []) ≤ 69 }
{
    match report.race {
        None => {
            writer.bytes(b"RAN,");
            writer.field(report.steps as u64, b'\n');
        }
        Some(race) => {
            writer.bytes(b"RACE,");
            writer.field(report.steps as u64, b',');
            write_race(writer, race);
        }
    }
}

// Four numbers inside a line.
fn write_four(writer: &mut Writer, x: Numbers)
    ensures { Writes writer.old writer.new (opened (number_fields x)) }
{
    writer.field(u64::from(x.number), b',');
    writer.field(x.line as u64, b',');
    writer.field(u64::from(x.condition), b',');
    writer.field(u64::from(x.location), b',');
}

// The line of a refusal.
fn write_refused(writer: &mut Writer, x: Numbers, report: Report)
    ensures written { Writes writer.old writer.new (line (refused_fields x report) []) }
    ensures short { length (line (refused_fields x report) []) ≤ 130 }
{
    writer.bytes(b"REFUSE,");
    write_four(writer, x);
    match report.race {
        None => writer.field(report.steps as u64, b'\n'),
        Some(race) => {
            writer.field(report.steps as u64, b',');
            writer.bytes(b"RACE,");
            write_race(writer, race);
        }
    }
}

fn write_outcome(writer: &mut Writer, outcome: Option<Replayed>)
    ensures written { Writes writer.old writer.new (output_line outcome) }
    ensures short { length (output_line outcome) ≤ 130 }
{
    let Some(Replayed { ending, report }) = outcome else {
        return writer.bytes(b"UNREAD\n");
    };
    match ending {
        Ending::Done => write_ran(writer, report),
        _ => write_refused(writer, ending_numbers(ending), report),
    }
}

// Writes the line of a replay at the front of a buffer, or of a program and a trace that can't be read; returns its length.
pub fn write_line(buffer: &mut [u8], outcome: Option<Replayed>) -> usize
    ensures line { WrittenAt buffer.old buffer.new 0 (output_line outcome) result }
    ensures short { result ≤ 130 }
{
    let mut writer = Writer::new(buffer);
    write_outcome(&mut writer, outcome);
    writer.position()
}
