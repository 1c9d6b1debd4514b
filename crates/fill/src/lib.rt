// The offered call of filling, request (viii): a program and a split whose step lines leave their maps out in, the whole sheet out.
#![tactic(auto)]

mod maps;

ghost use Rattle.std.specs.Prelude.{◌≡◌, List, ◌↔◌, ◌≤◌, length, take};
ghost use Rattle.spec.specs.Program.{Program};
ghost use Rattle.spec.specs.Split.{Map, Split};
ghost use Rattle.spec.specs.Verdict.{verdict, numbers4};
ghost use Rattle.spec.specs.Workspace.{workspace_size, workspace_after};
ghost use Rattle.spec.specs.declared.Answer.TheVariants.{Accept};
ghost use Rattle.fill_theory.specs.AfterMaps.{AfterMaps};
ghost use Rattle.fill_theory.specs.Answer.{fill as filling, returned_for, buffer_after, Fillable, FilledSheet, GreatestOverLimits};
ghost use Rattle.split_writer.specs.Contract.{HoldsSome as HoldsSheetOfSome};
ghost use Rattle.fill.specs.Numbers.{returned_by};
ghost use Rattle.fill.specs.Stages.{OutcomePost, grown_by, SheetsGiven, MapsGiven, SheetPost, TextPost, SheetsPost};

use maps::fill_maps;
use sheets::Held;
use spec::{Header, Purpose, Refusal};
use split_writer::write_sheet;
use workspace::{SIZE, clear};

// The most bytes that a split sheet may have.
const SPLIT_LIMIT: usize = 65536;

// The most maps that a sheet may give: one is added for each of up to 256 steps.
const GIVEN_LIMIT: usize = 256;

// The header of a sheet with a map more for each step.
#[tactic(auto, unfolding(crate::specs::Stages::grown_by))]
fn grown(header: Header, steps: usize) -> Header
    requires { (header.maps ≤ 256) × (steps ≤ 256) }
    ensures { result ≡ grown_by steps header }
{
    Header {
        maps: header.maps + steps,
        ..header
    }
}

// 42 for a sheet that is too long, else the sheet: the one that the work space holds. Its length is learned by writing it to nothing.
fn write_filled(
    work: &[u32],
    header: Header,
    steps: usize,
    procedures: usize,
    out: &mut [u8],
) -> Result<u32, Refusal>
    requires { HoldsSheetOfSome work.now header procedures steps }
    ensures { SheetPost work.now header steps procedures out.old out.new result }
{
    let length = write_sheet(&mut [], work, header, procedures, steps);
    if SPLIT_LIMIT < length || out.len() < length {
        return Err(Refusal::TooLarge);
    }
    write_sheet(out, work, header, procedures, steps);
    Ok(length as u32)
}

// 41 and 42, for the sheets that the work space holds.
fn fill_held(work: &mut [u32; SIZE], held: Held, out: &mut [u8]) -> Result<u32, Refusal>
    requires { MapsGiven work.old held.header held.steps held.procedures }
    ensures { TextPost work.old held.header held.steps held.procedures out.old out.new result }
{
    fill_maps(work, held.header, held.steps, held.procedures)?;
    let whole = grown(held.header, held.steps);
    write_filled(work, whole, held.steps, held.procedures, out)
}

// 43 and on, for the sheets that the work space holds.
fn fill_sheets(work: &mut [u32; SIZE], held: Held, out: &mut [u8]) -> Result<u32, Refusal>
    requires { SheetsGiven work.old held.header held.steps held.procedures }
    ensures { SheetsPost work.old held.header held.steps held.procedures out.old out.new result }
{
    if GIVEN_LIMIT < held.header.maps {
        return Err(Refusal::TooManyMaps);
    }
    walk::check(
        work,
        Purpose::Fill,
        held.steps,
        held.procedures,
        held.header,
    )?;
    fill_held(work, held, out)
}

// The answer to a pair of texts, in a work space that is as long as document 01 wants.
fn fill_texts(
    program: &[u8],
    split: &[u8],
    work: &mut [u32; SIZE],
    out: &mut [u8],
) -> Result<u32, Refusal>
    ensures { OutcomePost (filling workspace_size (length out.old) program.now split.now) out.old out.new result }
{
    let held = sheets::read(program, split, Purpose::Fill, work)?;
    fill_sheets(work, held, out)
}

// The whole sheet for a pair of texts, in front of the buffer `out`. What document 02 asks of it, clause by clause:
// answer: the four numbers are those that request (viii) gives, for every input;
// written: the buffer is the filled text and then what it held; on every refusal it is as it was;
// cleared: the first 16,384 numbers of the work space are 0 afterwards and the rest is as before; a shorter one is as it was;
// unchanged: both texts are as they were;
// solvable: with both sheets well formed, at most 256 maps, 44, 30 and every (T) condition met, the answer is 41 exactly when no maps of
// whole numbers, however large, pass all flow and access conditions;
// too_large: under the same, the answer is 42 exactly when the greatest such maps have a number above 1,000,000,000, or the sheet with
// them is over 65,536 bytes or over the buffer;
// greatest: the text written is that of the split with the greatest such maps;
// accepted: document 01's answer to the program and the text written is ACCEPT.
pub fn fill(program: &[u8], split: &[u8], work: &mut [u32], out: &mut [u8]) -> Result<u32, Refusal>
    ensures answer { returned_by result ≡ returned_for (filling (length work.old) (length out.old) program.now split.now) }
    ensures written { out.new ≡ buffer_after (filling (length work.old) (length out.old) program.now split.now) out.old }
    ensures cleared { work.new ≡ workspace_after work.old }
    ensures unchanged { (program.exit.now ≡ program.entry.now) × (split.exit.now ≡ split.entry.now) }
    ensures solvable { (P : Program) (S : Split) → Fillable (length work.old) program.now split.now P S → (returned_by result ≡ numbers4 41 0 0 0) ↔ ((σ : List Map) → AfterMaps P S σ → ⊥) }
    ensures too_large { (P : Program) (S : Split) → Fillable (length work.old) program.now split.now P S → (returned_by result ≡ numbers4 42 0 0 0) ↔ GreatestOverLimits (length out.old) P S }
    ensures greatest { (returned_by result).number ≡ 0 → FilledSheet (length work.old) (length out.old) program.now split.now (take (returned_by result).line out.new) }
    ensures accepted { (returned_by result).number ≡ 0 → verdict (length work.old) program.now (take (returned_by result).line out.new) ≡ Accept }
{
    let Some(lent) = work.first_chunk_mut() else {
        return Err(Refusal::ShortWorkspace);
    };
    let filled = fill_texts(program, split, lent, out);
    clear(lent);
    filled
}
