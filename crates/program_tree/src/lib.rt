// The procedures and the root that the stored lines list, each expression a step, then its parts, left to right.
#![tactic(auto)]

ghost use Rattle.std.specs.Prelude.{◌≡◌, ◌≤◌, IfSome};
ghost use Rattle.workspace.specs.Layout.{step_room};
ghost use Rattle.program_tree.specs.Items.{ItemsStored};
ghost use Rattle.program_tree.specs.Structure.{parts_of, Ended};

use spec::{Refusal, Word};
use workspace::{ENDS, LINES, PROC_FIRSTS, PROC_LINES, SIZE, WORDS};

// Reads the step at index k, and stores the index just past it and past each step in it: that index, or none if a part is missing
// among the n steps. "Each part is again a step": it reads its parts, which reads steps; the lines left fall.
#[cycle(read_parts_read_step)]
fn read_step(work: &mut [u32; SIZE], n: usize, k: usize) -> Option<usize>
    requires { (n ≤ step_room) × (k ≤ n) }
    ensures ended { Ended n 1 k work.old work.new result }
    ensures within { IfSome result (λ e. e ≤ n) }
{
    if n <= k {
        return None;
    }
    let word = workspace::word_of(work[WORDS + k]);
    let e = read_parts(work, n, word, k + 1)?;
    work[ENDS + k] = e as u32;
    Some(e)
}

// Reads the parts of a step with this word, of which the first begins at index k.
#[cycle(read_parts_read_step)]
fn read_parts(work: &mut [u32; SIZE], n: usize, w: Word, k: usize) -> Option<usize>
    requires { (n ≤ step_room) × (k ≤ n) }
    ensures ended { Ended n (parts_of w) k work.old work.new result }
    ensures within { IfSome result (λ e. e ≤ n) }
{
    match w {
        Word::Leaf(_) => Some(k),
        Word::Unary(_) => read_step(work, n, k),
        Word::Binary(_) => {
            let second = read_step(work, n, k)?;
            read_step(work, n, second)
        }
    }
}

// What stands at an index, behind some of the `proc` lines: the next of these, a step, or nothing.
#[derive(Clone, Copy, PartialEq, Eq)]
enum Next {
    Proc,
    Step,
    End,
}

// The lines that the work space stores: how many steps, how many `proc` lines, and which line of the sheet is the last.
#[derive(Clone, Copy, PartialEq, Eq)]
pub struct Stored {
    pub steps: usize,
    pub procs: usize,
    pub last: u32,
    pub ghost in_room: { (steps ≤ step_room) × (procs ≤ step_room) },
}

impl Stored {
    ghost use Rattle.program_tree.specs.Trees.{proc_next, next_of, limit_at, break_line, left_at, ExpressionDue, ExpressionFound, LinesLeft, BodyFound, Structured};

    // Whether `proc` line j stands at index i.
    #[tactic(auto, unfolding(crate::specs::Trees::proc_next))]
    fn proc_next(self, work: &[u32; SIZE], i: usize, j: usize) -> bool
        ensures { result ≡ proc_next work.now self i j }
    {
        j < self.procs && workspace::index(work[PROC_FIRSTS + j]) == i
    }

    // What stands at index i, behind j of the `proc` lines.
    #[tactic(auto, unfolding(crate::specs::Trees::next_of))]
    fn next_item(self, work: &[u32; SIZE], i: usize, j: usize) -> Next
        ensures { result ≡ next_of work.now self i j }
    {
        if self.proc_next(work, i, j) {
            Next::Proc
        } else if i < self.steps {
            Next::Step
        } else {
            Next::End
        }
    }

    // The index behind the steps in front of `proc` line j, or behind all steps.
    #[tactic(auto, unfolding(crate::specs::Trees::limit_at))]
    fn limit_at(self, work: &[u32; SIZE], j: usize) -> usize
        ensures { result ≡ limit_at work.now self j }
    {
        if j < self.procs {
            return workspace::index(work[PROC_FIRSTS + j]);
        }
        self.steps
    }

    // Where an unfinished expression breaks off: at `proc` line j, or at the last line.
    #[tactic(auto, unfolding(crate::specs::Trees::break_line))]
    fn break_line(self, work: &[u32; SIZE], j: usize) -> u32
        ensures { result ≡ break_line work.now self j }
    {
        if j < self.procs {
            work[PROC_LINES + j]
        } else {
            self.last
        }
    }

    // The expression that is due at index i, behind j of the `proc` lines: the index behind it.
    fn read_expression(self, work: &mut [u32; SIZE], i: usize, j: usize) -> Result<usize, Refusal>
        requires { ExpressionDue self i j work.old }
        ensures { ExpressionFound self i j work.old work.new result }
    {
        let limit = self.limit_at(work, j);
        let line = self.break_line(work, j);
        read_step(work, limit, i).ok_or(Refusal::ProgramLines(line))
    }

    // Whether no line is left at index e, behind `count` of the `proc` lines.
    #[tactic(auto, unfolding(crate::specs::Trees::left_at))]
    fn finish(self, work: &[u32; SIZE], e: usize, count: usize) -> Result<(), Refusal>
        requires { (e ≤ step_room) × (count ≤ step_room) }
        ensures { result ≡ left_at work.now self e count }
    {
        match self.next_item(work, e, count) {
            Next::Proc => Err(Refusal::ProgramLines(workspace::at(work, PROC_LINES + count))),
            Next::Step => Err(Refusal::ProgramLines(workspace::at(work, LINES + e))),
            Next::End => Ok(()),
        }
    }

    // The procedure that is due at index i, behind f of the `proc` lines: the index behind its body.
    fn read_procedure(self, work: &mut [u32; SIZE], i: usize, f: usize) -> Result<usize, Refusal>
        requires { LinesLeft self i f work.old }
        ensures { BodyFound self i f work.old work.new result }
    {
        match self.next_item(work, i, f) {
            Next::Proc => self.read_expression(work, i, f + 1),
            Next::Step => Err(Refusal::ProgramLines(workspace::at(work, LINES + i))),
            Next::End => Err(Refusal::ProgramLines(self.last)),
        }
    }

    // Whether the lines stored are `count` times a `proc` line and its body, and then the root: where the root begins.
    pub fn structure(self, work: &mut [u32; SIZE], count: usize) -> Result<usize, Refusal>
        requires { (count ≤ 16) × ItemsStored self.steps self.procs work.old }
        ensures { Structured self count work.old work.new result }
    {
        let mut i = 0;
        for f in 0..count {
            i = self.read_procedure(work, i, f)?;
        }
        let e = self.read_expression(work, i, count)?;
        self.finish(work, e, count)?;
        Ok(i)
    }
}
