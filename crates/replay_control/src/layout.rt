// What stands where while a replay runs, the one table of offsets: behind the program's columns, and in the lent space.

// ---- the program, in an array of its own: the columns of `workspace` up to its ROW_TYPES, and behind them

// The continuation of each step. A number below 256 is the step whose first part this value is, one from 256 on the step whose
// second part it is, 512 says that the thread finishes with it, and 513 that an open call ends with it.
pub const CONTINUATIONS: usize = 2176;

pub const SECOND_PART: u32 = 256;

pub const FINISH: u32 = 512;

pub const LEAVE: u32 = 513;

// How many procedures the program has.
pub const PROCEDURES: usize = 2448;

// The end: how many numbers hold a program.
pub const PROGRAM: usize = 2449;

// ---- the lent space

// 66 rows for each of 16 threads: one for what runs outside of calls, one for each of 64 open calls, and one for the call that is
// tried.
pub const LEVELS: usize = 66;

// The rows of all threads.
pub const ROWS: u32 = 1056;

// A row has 256 numbers: the value of each variable; by step, the value that the first part of a `write` gave. A value is 0 for any
// constant, since no step asks which constant it is, and n + 1 for the name n.
pub const ROW: usize = 256;

pub const ENVIRONMENTS: usize = 0;

pub const KEPT_VALUES: usize = 270336;

// By row: the step of the open call whose body runs there.
pub const OPEN_CALLS: usize = 540672;

// By thread: where it stands between two steps, the four numbers of its `ControlPoint`.
pub const CONTROL_POINT_MODES: usize = 541728;

pub const CONTROL_POINT_PLACES: usize = 541744;

pub const CONTROL_POINT_VALUES: usize = 541760;

pub const CONTROL_POINT_ROWS: usize = 541776;

// How many things of each kind there are, by kind, up to 8 kinds; and the value that stands for the next name. The 7 numbers behind
// it are not used.
pub const THING_COUNTS: usize = 541792;

pub const NEXT_VALUE: usize = 541800;

// By value, up to 384 of which 322 are used: what it names, and two numbers of that.
pub const THING_KINDS: usize = 541808;

pub const THING_FIRSTS: usize = 542192;

pub const THING_SECONDS: usize = 542576;

// The first value that no name has: the start's identifier and 64 of each of five kinds have the values from 1 on.
pub const VALUE_LIMIT: u32 = 322;

// The end: how many 32-bit numbers a replay works in.
pub const SPACE: usize = 542960;
