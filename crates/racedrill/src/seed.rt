// The seed that an argument spells.
ghost use Rattle.std.specs.Prelude.{◌≡◌};
ghost use Rattle.racedrill.specs.Seed.{seed_of};

// The number of 32 bits that a word spells, if it spells one.
pub(crate) fn seed_of(word: &[u8]) -> Option<u32>
    ensures { result ≡ seed_of word.now }
{
    let n = lexer::numeral_of(word)?;
    u32::try_from(n).ok()
}
