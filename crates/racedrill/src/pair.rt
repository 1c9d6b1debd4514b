// The practice pair that a word asks for.
ghost use Rattle.std.specs.Prelude.{◌≡◌, length};
ghost use Rattle.racedrill.specs.Seed.{seed_of};
ghost use Rattle.racedrill.specs.Pair.{Roomy, pair_of, shown};

use crate::seed::seed_of;
use drill::{Drilled, drill};

// Writes the pair of a word in front of two buffers, and hands back the new x and the lengths of program and split; none for a word that
// is no seed. The buffers have room for any sheet, so none is too short for it.
pub(crate) fn pair_of(word: &[u8], program: &mut [u8], split: &mut [u8]) -> Option<Drilled>
    requires { Roomy (length program.old) (length split.old) }
    ensures { shown result program.new split.new ≡ pair_of (seed_of word.now) }
{
    let seed = seed_of(word)?;
    drill(seed, program, split)
}
