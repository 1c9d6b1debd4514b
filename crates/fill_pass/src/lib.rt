// The pass of filling at one location, request (viii): the greatest posts of all steps there, from what the work space holds of a
// program and a split.
#![tactic(auto)]

mod attainable;
mod posts;
mod roots;
mod upper_bounds;

ghost use Rattle.fill_pass.specs.Contract.{ColumnReady, FilledHere};

use fill_transfer::Column;
use roots::fill_roots;
use spec::MapNumber;

// The number of procedures of the sheets, and the map before the root.
#[derive(Clone, Copy)]
pub struct Given {
    pub procedures: u32,
    pub start: MapNumber,
}

// Whether there are posts that pass at the location; if so, the greatest stand in front of `posts`, in step order, of up to 256 steps.
pub fn fill_location(work: &[u32], posts: &mut [u64; 256], column: Column, given: Given) -> bool
    requires { ColumnReady work.now column given }
    ensures { FilledHere work.now column given posts.new result }
{
    fill_roots(work, posts, column, given)
}
