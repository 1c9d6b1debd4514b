// The fixed words of both sheets, as fields spell them; in `numbers` what the word of a step says of its number v.
#![tactic(auto)]

mod numbers;

ghost use Rattle.std.specs.Prelude.{◌≡◌, [], ◌∷◌};
ghost use Rattle.spec.specs.Text.{same as same_bytes, look_up};
ghost use Rattle.spec.specs.Words.{leaf_words, cell_words, lock_words, hold_words, unary_words, binary_words, words, words_under, calls as calls_of};
ghost use Rattle.keywords.specs.Words.{type_word_of};

pub use numbers::{least_of, limit_of, role_of};
use spec::{BinaryWord, LeafWord, ProgramHeading, UnaryWord, Word};

// The kinds of type lines.
#[derive(Clone, Copy, PartialEq, Eq)]
pub enum TypeWord {
    Int,
    Ref,
    Lock,
    Tid,
    Sem,
    Rwlock,
}

// Whether two slices hold the same bytes. `==` says so too, by a call that costs several times as much at words as short as these.
pub fn same(a: &[u8], b: &[u8]) -> bool
    ensures { result ≡ same_bytes a.now b.now }
{
    a.len() == b.len() && a.iter().zip(b).all(|(x, y)| x == y)
}

// What is found for a word, if a field spells it.
pub fn spelled<T: Copy>(field: &[u8], word: &[u8], found: T) -> Option<T>
    ensures { result ≡ look_up ((word.now, found) ∷ []) field.now }
{
    same(word, field).then_some(found)
}

// The word without parts that a field spells.
fn leaf_word(field: &[u8]) -> Option<Word>
    ensures { result ≡ look_up leaf_words field.now }
{
    spelled(field, b"var", Word::Leaf(LeafWord::Var))
        .or(spelled(field, b"int", Word::Leaf(LeafWord::Int)))
        .or(spelled(field, b"newtid", Word::Leaf(LeafWord::Newtid)))
        .or(spelled(field, b"newlock", Word::Leaf(LeafWord::Newlock)))
        .or(spelled(field, b"newsem", Word::Leaf(LeafWord::Newsem)))
        .or(spelled(field, b"newrwlock", Word::Leaf(LeafWord::Newrwlock)))
}

// The word with one part, of loops, threads and cells, that a field spells.
fn cell_word(field: &[u8]) -> Option<Word>
    ensures { result ≡ look_up cell_words field.now }
{
    spelled(field, b"while", Word::Unary(UnaryWord::While))
        .or(spelled(field, b"join", Word::Unary(UnaryWord::Join)))
        .or(spelled(field, b"ref", Word::Unary(UnaryWord::Ref)))
        .or(spelled(field, b"read", Word::Unary(UnaryWord::Read)))
}

// The word with one part, of locks and semaphores, that a field spells.
fn lock_word(field: &[u8]) -> Option<Word>
    ensures { result ≡ look_up lock_words field.now }
{
    spelled(field, b"lock", Word::Unary(UnaryWord::Lock))
        .or(spelled(field, b"unlock", Word::Unary(UnaryWord::Unlock)))
        .or(spelled(field, b"post", Word::Unary(UnaryWord::Post)))
        .or(spelled(field, b"wait", Word::Unary(UnaryWord::Wait)))
}

// The word with one part, of read-write locks, that a field spells.
fn hold_word(field: &[u8]) -> Option<Word>
    ensures { result ≡ look_up hold_words field.now }
{
    spelled(field, b"rdlock", Word::Unary(UnaryWord::Rdlock))
        .or(spelled(field, b"rdunlock", Word::Unary(UnaryWord::Rdunlock)))
        .or(spelled(field, b"wrlock", Word::Unary(UnaryWord::Wrlock)))
        .or(spelled(field, b"wrunlock", Word::Unary(UnaryWord::Wrunlock)))
}

// The word with two parts that a field spells.
fn binary_word(field: &[u8]) -> Option<Word>
    ensures { result ≡ look_up binary_words field.now }
{
    spelled(field, b"let", Word::Binary(BinaryWord::Let))
        .or(spelled(field, b"if", Word::Binary(BinaryWord::If)))
        .or(spelled(field, b"spawn", Word::Binary(BinaryWord::Spawn)))
        .or(spelled(field, b"write", Word::Binary(BinaryWord::Write)))
}

// The word with one part that a field spells.
fn unary_word(field: &[u8]) -> Option<Word>
    ensures { result ≡ look_up unary_words field.now }
{
    cell_word(field).or(lock_word(field)).or(hold_word(field))
}

// The word of a step that a field spells.
fn word_of(field: &[u8]) -> Option<Word>
    ensures { result ≡ look_up words field.now }
{
    leaf_word(field)
        .or(unary_word(field))
        .or(binary_word(field))
}

// The word of a step that a field spells under a heading: `call` too in a `P2` sheet.
pub fn word_under(field: &[u8], heading: ProgramHeading) -> Option<Word>
    ensures { result ≡ look_up (words_under heading) field.now }
{
    match heading {
        ProgramHeading::P => word_of(field),
        ProgramHeading::P2 => {
            spelled(field, b"call", Word::Unary(UnaryWord::Call)).or(word_of(field))
        }
    }
}

// Whether the number of a step with this word is that of a procedure.
#[tactic(auto, unfolding(spec::specs::Words::calls))]
pub fn calls(w: UnaryWord) -> bool
    ensures { result ≡ calls_of w }
{
    w == UnaryWord::Call
}

// The kind of a type line that a field spells.
pub fn type_word(field: &[u8]) -> Option<TypeWord>
    ensures { result ≡ type_word_of field.now }
{
    spelled(field, b"int", TypeWord::Int)
        .or(spelled(field, b"ref", TypeWord::Ref))
        .or(spelled(field, b"lock", TypeWord::Lock))
        .or(spelled(field, b"tid", TypeWord::Tid))
        .or(spelled(field, b"sem", TypeWord::Sem))
        .or(spelled(field, b"rwlock", TypeWord::Rwlock))
}
