// The greatest after-maps, one location after the other, stored as maps behind the given ones.
ghost use Rattle.std.specs.Prelude.{◌≡◌, true, ◌+◌, ◌≤◌, ◌<◌, length};
ghost use Rattle.fill_theory.specs.Answer.{number_limit, map_at_most};
ghost use Rattle.fill.specs.Columns.{Room, ColumnStored, OneColumn, PostsStored, ColumnGiven, ColumnFilled, PostsShown};
ghost use Rattle.fill.specs.FilledMaps.{FilledMaps};
ghost use Rattle.fill.specs.Stages.{MapsGiven};

use fill_pass::{Given, fill_location};
use fill_transfer::Column;
use spec::{Header, Location, Refusal};
use workspace::{MAPS, POSTS, SIZE, STRIDE, index};

// The largest number that a map may have.
const LARGEST: u64 = 1000000000;

// Whether no post is larger than a map can have.
fn posts_fit(posts: &[u64]) -> bool
    ensures { result ≡ map_at_most number_limit posts.now }
{
    posts.iter().all(|post| *post <= LARGEST)
}

// Stores the posts at a location in the new maps, which stand behind the `maps` given ones.
fn store_column(work: &mut [u32; SIZE], posts: &[u64], maps: usize, p: Location)
    requires { Room posts.now maps p.0 × (map_at_most number_limit posts.now ≡ true) }
    ensures { OneColumn maps p.0 work.old work.new × ColumnStored work.new maps p.0 posts.now }
{
    let l = index(p.0);
    for (i, post) in posts.iter().enumerate() {
        let place = MAPS + STRIDE * (maps + i) + l;
        work[place] = *post as u32;
    }
}

// Stores the posts at a location in the new maps, if no post is larger than a map can have; whether that is so.
fn store_posts(work: &mut [u32; SIZE], posts: &[u64], maps: usize, p: Location) -> bool
    requires { Room posts.now maps p.0 }
    ensures { PostsStored posts.now maps p.0 result work.old work.new }
{
    if posts_fit(posts) {
        store_column(work, posts, maps, p);
        return true;
    }
    false
}

// Stores the greatest posts at a location in the new maps, if none is larger than a map can have; whether that is so. 41 where there are
// no posts.
fn fill_column(
    work: &mut [u32; SIZE],
    header: Header,
    steps: usize,
    procedures: usize,
    p: Location,
) -> Result<bool, Refusal>
    requires { ColumnGiven work.old header steps procedures p.0 }
    ensures { ColumnFilled work.old header steps procedures p.0 result work.new }
{
    let mut posts = [0u64; 256];
    let column = Column {
        location: p,
        denominator: header.denominator,
    };
    let given = Given {
        procedures: procedures as u32,
        start: header.start,
    };
    if !fill_location(work, &mut posts, column, given) {
        return Err(Refusal::NoAfterMaps);
    }
    Ok(store_posts(work, &posts[..steps], header.maps, p))
}

// Each step shows a new map of its own.
fn show_maps(work: &mut [u32; SIZE], steps: usize, maps: usize)
    requires { (steps ≤ 256) × (maps ≤ 256) }
    ensures { PostsShown steps maps work.old work.new }
{
    for i in 0..steps {
        work[POSTS + i] = (maps + i) as u32;
    }
}

// The greatest after-maps of the sheets that the work space holds, filled in there: the map of step i has the number M + i.
// That there are none, 41, is told at the first location without posts; that a number is too large, 42, once every location has some.
pub(crate) fn fill_maps(
    work: &mut [u32; SIZE],
    header: Header,
    steps: usize,
    procedures: usize,
) -> Result<(), Refusal>
    requires { MapsGiven work.old header steps procedures }
    ensures { FilledMaps work.old header steps procedures result work.new }
{
    let mut large = false;
    for l in 0..header.locations {
        let stored = fill_column(work, header, steps, procedures, Location(l as u32))?;
        if !stored {
            large = true;
        }
    }
    if large {
        return Err(Refusal::TooLarge);
    }
    show_maps(work, steps, header.maps);
    Ok(())
}
