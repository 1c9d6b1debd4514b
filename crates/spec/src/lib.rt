// The shapes that the definitions of document 01 and the code share. The definitions stand in specs/.
#![tactic(auto)]

// The words of a program sheet, by their number of parts.
#[derive(Clone, Copy, PartialEq, Eq)]
pub enum LeafWord {
    Var,
    Int,
    Newtid,
    Newlock,
    Newsem,
    Newrwlock,
}

#[derive(Clone, Copy, PartialEq, Eq)]
pub enum UnaryWord {
    While,
    Join,
    Ref,
    Read,
    Lock,
    Unlock,
    Post,
    Wait,
    Rdlock,
    Rdunlock,
    Wrlock,
    Wrunlock,
    Call,
}

#[derive(Clone, Copy, PartialEq, Eq)]
pub enum BinaryWord {
    Let,
    If,
    Spawn,
    Write,
}

#[derive(Clone, Copy, PartialEq, Eq)]
pub enum Word {
    Leaf(LeafWord),
    Unary(UnaryWord),
    Binary(BinaryWord),
}

// What a step does with its number v: a variable is bound or used, a procedure is called, any other number is neither.
#[derive(Clone, Copy, PartialEq, Eq)]
pub enum Role {
    Binds,
    Uses,
    Calls,
    Neither,
}

// The headings of a program sheet: `P,n` and `P2,n,k`.
#[derive(Clone, Copy, PartialEq, Eq)]
pub enum ProgramHeading {
    P,
    P2,
}

// The numbers of types, maps and locations, each counted from 0: three sorts that never mix.
#[derive(Clone, Copy, PartialEq, Eq)]
pub struct TypeNumber(pub u32);

#[derive(Clone, Copy, PartialEq, Eq)]
pub struct MapNumber(pub u32);

#[derive(Clone, Copy, PartialEq, Eq)]
pub struct Location(pub u32);

// The headings of a split sheet: `C,D,L,T,M`, `C2,D,L,T,M,r` and `C3,D,L,T,M,r`.
#[derive(Clone, Copy, PartialEq, Eq)]
pub enum Heading {
    C,
    C2,
    C3,
}

// What a split sheet is read for: to check a program with it, or to fill in its after-maps.
#[derive(Clone, Copy, PartialEq, Eq)]
pub enum Purpose {
    Check,
    Fill,
}

// What line 1 of a split sheet says: its heading, the denominator, how many locations, types and maps there are, and the start, the
// map before the root.
#[derive(Clone, Copy, PartialEq, Eq)]
pub struct Header {
    pub heading: Heading,
    pub denominator: u32,
    pub locations: usize,
    pub types: usize,
    pub maps: usize,
    pub start: MapNumber,
}

// What the line of a procedure says, `before,argument,after,result`: the map and the type that it asks for, and those that it leaves.
#[derive(Clone, Copy, PartialEq, Eq)]
pub struct Signature {
    pub before: MapNumber,
    pub argument: TypeNumber,
    pub after: MapNumber,
    pub result: TypeNumber,
}

// What a type line of a split sheet says. A content type, a map: by number. A lock has its in and its out, a
// read-write lock what a reader and a writer take.
#[derive(Clone, Copy, PartialEq, Eq)]
pub enum TypeLine {
    Int,
    Ref(Location, TypeNumber),
    Lock(MapNumber, MapNumber),
    Tid(MapNumber),
    Sem(MapNumber),
    Rwlock(MapNumber, MapNumber),
}

// A reason to stop, with the line, the condition and the location that a person wants to know.
#[derive(Clone, Copy, PartialEq, Eq)]
pub enum Refusal {
    ShortWorkspace,
    LongProgram,
    ProgramForm(u32),
    ProgramRange(u32),
    ProgramLines(u32),
    Unbound(u32),
    Rebound(u32),
    LongSplit,
    SplitForm(u32),
    SplitRange(u32),
    SplitLines(u32),
    NoStart(u32),
    OverOne {
        line: u32,
        location: Location,
    },
    TypeFalse {
        line: u32,
        condition: u32,
    },
    FlowFalse {
        line: u32,
        condition: u32,
        location: Location,
    },
    AccessFalse {
        line: u32,
        condition: u32,
        location: Location,
    },
    NoAfterMaps,
    TooLarge,
    TooManyMaps,
    LockTakesLess(u32),
    Freelock(u32),
    NoProcedure(u32),
    NoKept(u32),
}

// The answer to a pair of sheets.
#[derive(Clone, Copy, PartialEq, Eq)]
pub enum Answer {
    Accept,
    Refuse(Refusal),
}

// The four numbers that a call returns for an answer.
#[derive(Clone, Copy, PartialEq, Eq)]
pub struct Returned {
    pub number: u32,
    pub line: u32,
    pub condition: u32,
    pub location: u32,
}
