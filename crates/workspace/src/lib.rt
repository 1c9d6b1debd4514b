// What stands where in the lent work space, once the sheets are read: the one table of offsets, the numbers that stand for
// words and types, and reading them back.
#![tactic(auto)]

ghost use Rattle.std.specs.Prelude.{◌≡◌, ◌+◌, ◌*◌, ◌<◌, length, get_or, replicate};
ghost use Rattle.workspace.specs.Layout.{code_of, leaf_code, unary_code, binary_code, rule_of, touching as touching_by, known as known_by, traits_of, shape_of, touch_of, word_of, kind_code, first_of, second_of, type_of, type_at, map_cell};

use spec::{BinaryWord, LeafWord, Location, MapNumber, TypeLine, TypeNumber, UnaryWord, Word};

// How many 32-bit numbers a check works in.
pub const SIZE: usize = 16384;

// Steps in line order, up to 272, which is 256 and the 16 that may stand where a `proc` line is due: word, number v, the index
// past the step, for a `var` the index of its let or the mark of its procedure, line in the sheet.
pub const WORDS: usize = 0;

pub const VALUES: usize = 272;

pub const ENDS: usize = 544;

pub const LETS: usize = 816;

pub const LINES: usize = 1088;

// `proc` lines in line order, up to 272, of which 16 are not refused: line in the sheet, variable, and the index of the step
// behind it, where its body begins. Behind those of the procedures, the index at which the root begins.
pub const PROC_LINES: usize = 1360;

pub const PROC_VARS: usize = 1632;

pub const PROC_FIRSTS: usize = 1904;

// The mark of procedure 0, in the place of an index of a let; the marks of the others follow.
pub const PROC_MARK: u32 = 256;

// Rows in line order, up to 256: type, post, the map that a spawned body starts with or a call keeps back, which is the empty
// map where none is given; and the map before the step.
pub const ROW_TYPES: usize = 2176;

pub const POSTS: usize = 2432;

pub const STARTS: usize = 2688;

pub const PRES: usize = 2944;

// Types by number, up to 64: kind and the two numbers of the type line.
pub const KINDS: usize = 3200;

pub const FIRSTS: usize = 3264;

pub const SECONDS: usize = 3328;

// Signatures by number, up to 16: the map before, the argument's type, the map after, the result's type.
pub const SIG_BEFORES: usize = 3408;

pub const SIG_ARGUMENTS: usize = 3424;

pub const SIG_AFTERS: usize = 3440;

pub const SIG_RESULTS: usize = 3456;

// Maps by number, up to 512, each in a row of 16.
pub const MAPS: usize = 4096;

pub const STRIDE: usize = 16;

// The number of the empty map, nothing of any location: a row of zeros behind those of the 512 maps that a sheet may have.
pub const EMPTY_MAP: u32 = 512;

pub const EMPTY_ROW: usize = 12288;

// The number at a place of the work space; 0 past its end.
pub fn at(work: &[u32], i: usize) -> u32
    ensures { result ≡ get_or work.now i 0 }
{
    work.get(i).copied().unwrap_or(0)
}

// A number of the work space as an index.
pub fn index(x: u32) -> usize
    ensures { (result ≡ x) × (result < 4294967296) }
{
    x as usize
}

// A number of the work space, so that two of them can be added or multiplied.
pub fn wide(x: u32) -> u64
    ensures { (result ≡ x) × (result < 4294967296) }
{
    x as u64
}

// The rules, one a word: those of Figure 5 in the printed order, behind them those of section 3.1.4, those of read-write
// locks and that of calls.
#[derive(Clone, Copy, PartialEq, Eq)]
pub enum Rule {
    VAR,
    INT,
    LET,
    IF,
    WHILE,
    NEWT,
    SPAWN,
    JOIN,
    REF,
    WRITE,
    READ,
    NEWL,
    LCK,
    ULCK,
    NEWSEM,
    POST,
    WAIT,
    NEWRWLOCK,
    RDLOCK,
    RDUNLOCK,
    WRLOCK,
    WRUNLOCK,
    CALL,
}

// How a word is evaluated, one shape for each form of expression of the calculus; of the words with one part, a call by itself, since its
// step enters a body.
#[derive(Clone, Copy, PartialEq, Eq)]
pub enum Shape {
    Variable,
    Constant,
    NoPart,
    While,
    OnePart,
    Call,
    Let,
    If,
    Spawn,
    Write,
}

// What a word does with the cell that it is about, if it is about one.
#[derive(Clone, Copy, PartialEq, Eq)]
pub enum Touch {
    Nothing,
    Reads,
    Writes,
}

// What is known of a rule: the word that it is for, how that is evaluated, and what it does with a cell.
#[derive(Clone, Copy, PartialEq, Eq)]
struct Traits {
    word: Word,
    shape: Shape,
    touch: Touch,
}

fn leaf_code(w: LeafWord) -> u32
    ensures { result ≡ leaf_code w }
{
    match w {
        LeafWord::Var => 0,
        LeafWord::Int => 1,
        LeafWord::Newtid => 5,
        LeafWord::Newlock => 11,
        LeafWord::Newsem => 14,
        LeafWord::Newrwlock => 17,
    }
}

fn unary_code(w: UnaryWord) -> u32
    ensures { result ≡ unary_code w }
{
    match w {
        UnaryWord::While => 4,
        UnaryWord::Join => 7,
        UnaryWord::Ref => 8,
        UnaryWord::Read => 10,
        UnaryWord::Lock => 12,
        UnaryWord::Unlock => 13,
        UnaryWord::Post => 15,
        UnaryWord::Wait => 16,
        UnaryWord::Rdlock => 18,
        UnaryWord::Rdunlock => 19,
        UnaryWord::Wrlock => 20,
        UnaryWord::Wrunlock => 21,
        UnaryWord::Call => 22,
    }
}

fn binary_code(w: BinaryWord) -> u32
    ensures { result ≡ binary_code w }
{
    match w {
        BinaryWord::Let => 2,
        BinaryWord::If => 3,
        BinaryWord::Spawn => 6,
        BinaryWord::Write => 9,
    }
}

// The number that stands for a word: the place of its rule.
pub fn code_of(w: Word) -> u32
    ensures { result ≡ code_of w }
{
    match w {
        Word::Leaf(l) => leaf_code(l),
        Word::Unary(u) => unary_code(u),
        Word::Binary(b) => binary_code(b),
    }
}

// The rule at a place.
#[tactic(auto, unfolding(crate::specs::Layout::rule_of, crate::specs::Layout::printed))]
pub fn rule_of(code: u32) -> Rule
    ensures { result ≡ rule_of code }
{
    match code {
        0 => Rule::VAR,
        1 => Rule::INT,
        2 => Rule::LET,
        3 => Rule::IF,
        4 => Rule::WHILE,
        5 => Rule::NEWT,
        6 => Rule::SPAWN,
        7 => Rule::JOIN,
        8 => Rule::REF,
        9 => Rule::WRITE,
        10 => Rule::READ,
        11 => Rule::NEWL,
        12 => Rule::LCK,
        13 => Rule::ULCK,
        14 => Rule::NEWSEM,
        15 => Rule::POST,
        16 => Rule::WAIT,
        17 => Rule::NEWRWLOCK,
        18 => Rule::RDLOCK,
        19 => Rule::RDUNLOCK,
        20 => Rule::WRLOCK,
        21 => Rule::WRUNLOCK,
        _ => Rule::CALL,
    }
}

fn touching(word: Word, shape: Shape, touch: Touch) -> Traits
    ensures { result ≡ touching_by word shape touch }
{
    Traits { word, shape, touch }
}

// Of a word that touches no cell.
fn known(word: Word, shape: Shape) -> Traits
    ensures { result ≡ known_by word shape }
{
    touching(word, shape, Touch::Nothing)
}

fn traits_of(r: Rule) -> Traits
    ensures { result ≡ traits_of r }
{
    match r {
        Rule::VAR => known(Word::Leaf(LeafWord::Var), Shape::Variable),
        Rule::INT => known(Word::Leaf(LeafWord::Int), Shape::Constant),
        Rule::LET => known(Word::Binary(BinaryWord::Let), Shape::Let),
        Rule::IF => known(Word::Binary(BinaryWord::If), Shape::If),
        Rule::WHILE => known(Word::Unary(UnaryWord::While), Shape::While),
        Rule::NEWT => known(Word::Leaf(LeafWord::Newtid), Shape::NoPart),
        Rule::SPAWN => known(Word::Binary(BinaryWord::Spawn), Shape::Spawn),
        Rule::JOIN => known(Word::Unary(UnaryWord::Join), Shape::OnePart),
        Rule::REF => known(Word::Unary(UnaryWord::Ref), Shape::OnePart),
        Rule::WRITE => touching(Word::Binary(BinaryWord::Write), Shape::Write, Touch::Writes),
        Rule::READ => touching(Word::Unary(UnaryWord::Read), Shape::OnePart, Touch::Reads),
        Rule::NEWL => known(Word::Leaf(LeafWord::Newlock), Shape::NoPart),
        Rule::LCK => known(Word::Unary(UnaryWord::Lock), Shape::OnePart),
        Rule::ULCK => known(Word::Unary(UnaryWord::Unlock), Shape::OnePart),
        Rule::NEWSEM => known(Word::Leaf(LeafWord::Newsem), Shape::NoPart),
        Rule::POST => known(Word::Unary(UnaryWord::Post), Shape::OnePart),
        Rule::WAIT => known(Word::Unary(UnaryWord::Wait), Shape::OnePart),
        Rule::NEWRWLOCK => known(Word::Leaf(LeafWord::Newrwlock), Shape::NoPart),
        Rule::RDLOCK => known(Word::Unary(UnaryWord::Rdlock), Shape::OnePart),
        Rule::RDUNLOCK => known(Word::Unary(UnaryWord::Rdunlock), Shape::OnePart),
        Rule::WRLOCK => known(Word::Unary(UnaryWord::Wrlock), Shape::OnePart),
        Rule::WRUNLOCK => known(Word::Unary(UnaryWord::Wrunlock), Shape::OnePart),
        Rule::CALL => known(Word::Unary(UnaryWord::Call), Shape::Call),
    }
}

// How the word of a rule is evaluated.
pub fn shape_of(r: Rule) -> Shape
    ensures { result ≡ shape_of r }
{
    traits_of(r).shape
}

// What the word of a rule does with a cell.
pub fn touch_of(r: Rule) -> Touch
    ensures { result ≡ touch_of r }
{
    traits_of(r).touch
}

// The word that a number stands for.
#[tactic(auto, unfolding(crate::specs::Layout::word_of))]
pub fn word_of(code: u32) -> Word
    ensures { result ≡ word_of code }
{
    traits_of(rule_of(code)).word
}

// The number that stands for a type line's kind, and the line's two numbers.
pub fn kind_of(t: TypeLine) -> u32
    ensures { result ≡ kind_code t }
{
    match t {
        TypeLine::Int => 0,
        TypeLine::Ref(_, _) => 1,
        TypeLine::Lock(_, _) => 2,
        TypeLine::Tid(_) => 3,
        TypeLine::Sem(_) => 4,
        TypeLine::Rwlock(_, _) => 5,
    }
}

pub fn first_of(t: TypeLine) -> u32
    ensures { result ≡ first_of t }
{
    match t {
        TypeLine::Int => 0,
        TypeLine::Ref(p, _) => p.0,
        TypeLine::Lock(m, _) | TypeLine::Tid(m) | TypeLine::Sem(m) | TypeLine::Rwlock(m, _) => m.0,
    }
}

pub fn second_of(t: TypeLine) -> u32
    ensures { result ≡ second_of t }
{
    match t {
        TypeLine::Int | TypeLine::Tid(_) | TypeLine::Sem(_) => 0,
        TypeLine::Ref(_, c) => c.0,
        TypeLine::Lock(_, m) | TypeLine::Rwlock(_, m) => m.0,
    }
}

// The type line that a kind and two numbers stand for.
#[tactic(auto, unfolding(crate::specs::Layout::type_of))]
fn type_of(kind: u32, first: u32, second: u32) -> TypeLine
    ensures { result ≡ type_of kind first second }
{
    match kind {
        1 => TypeLine::Ref(Location(first), TypeNumber(second)),
        2 => TypeLine::Lock(MapNumber(first), MapNumber(second)),
        3 => TypeLine::Tid(MapNumber(first)),
        4 => TypeLine::Sem(MapNumber(first)),
        5 => TypeLine::Rwlock(MapNumber(first), MapNumber(second)),
        _ => TypeLine::Int,
    }
}

// The type line with a number. The three columns stand one behind the other, so where the last of its numbers is in the work space
// the others are, and none is looked for by itself.
#[tactic(auto, unfolding(crate::specs::Layout::type_at))]
pub fn type_at(work: &[u32], t: TypeNumber) -> TypeLine
    ensures { result ≡ type_at work.now t }
{
    let i = index(t.0);
    if SECONDS + i < work.len() {
        return type_of(work[KINDS + i], work[FIRSTS + i], work[SECONDS + i]);
    }
    type_of(
        at(work, KINDS + i),
        at(work, FIRSTS + i),
        at(work, SECONDS + i),
    )
}

// What map m has at location l.
#[tactic(auto, unfolding(crate::specs::Layout::map_cell))]
pub fn map_cell(work: &[u32], m: MapNumber, l: usize) -> u32
    requires { l < 4294967296 }
    ensures { result ≡ map_cell work.now m l }
{
    at(work, MAPS + STRIDE * index(m.0) + l)
}

// Every number of the slice becomes 0.
pub fn clear(s: &mut [u32])
    ensures { s.new ≡ replicate (length s.old) 0 }
{
    s.fill(0);
}
