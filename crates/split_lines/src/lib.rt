// The lines of a split sheet after its header, one at a cursor, with its ranges: of a type and of a map, which have a number; of a
// procedure, which is its signature, and of a step, which is its row.
#![tactic(auto)]

mod maps;
mod rows;
mod signatures;
mod types;

pub use maps::map_line;
pub use rows::{Row, row_line};
pub use signatures::signature_line;
pub use types::type_line;
