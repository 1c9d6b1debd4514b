// Filling, request (viii): the greatest after-maps of a split whose step lines leave them out. Here the shapes that definitions
// and code share; what filling is stands in specs/, that it is right in proofs/.
#![tactic(auto)]

// What a step does to the number at one location once its parts are done: it takes some, it gives some, so much must be there
// afterwards, and what it lends in all may be no more than what it takes.
#[derive(Clone, Copy, PartialEq, Eq)]
pub struct Effect {
    pub takes: u32,
    pub gives: u32,
    pub needs: u32,
    pub lends: u64,
}

// The transfer function of a step, by the number of its parts.
#[derive(Clone, Copy, PartialEq, Eq)]
pub enum Transfer {
    Leaf(Effect),
    Unary(UnaryTransfer),
    Binary(BinaryTransfer),
}

// With one part: after it; around it, again and again; or with exact numbers before and after the procedure that the step calls.
#[derive(Clone, Copy, PartialEq, Eq)]
pub enum UnaryTransfer {
    After(Effect),
    Loop,
    Call(u64, u64),
}

// With two parts: after both, the second after the first; through one or the other; or to both at once. A fork has the start of its
// second part and what that must leave.
#[derive(Clone, Copy, PartialEq, Eq)]
pub enum BinaryTransfer {
    InTurn(Effect),
    Branch,
    Fork(u32, u32),
}
