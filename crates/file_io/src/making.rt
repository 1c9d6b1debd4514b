// Making a file that is not there yet.
ghost use Rattle.std.specs.Prelude.{◌≡◌, ◌≢◌, IfOk, length};
ghost use Rattle.std.specs.declared.io.ErrorKind.TheVariants.{AlreadyExists};
ghost use Rattle.file_io.specs.declared.making.Unmade.TheVariants.{Taken, Unwritten};

use crate::retry;
use std::env::Env;
use std::fs::Files;
use std::io::ErrorKind;
use std_io::io::last_error;

// Why a file is not made: its name is taken, or it can't be written to its end.
#[derive(Clone, Copy, PartialEq, Eq)]
pub enum Unmade {
    Taken,
    Unwritten,
}

// A file that is there already has taken the name; after any other failure the new one can't be written.
impl From<ErrorKind> for Unmade {
    ghost from_gives = { λ kind unmade. (kind ≡ AlreadyExists → unmade ≡ Taken) × (kind ≢ AlreadyExists → unmade ≡ Unwritten) };

    fn from(kind: ErrorKind) -> Unmade {
        match kind {
            ErrorKind::AlreadyExists => Unmade::Taken,
            _ => Unmade::Unwritten,
        }
    }
}

// Removes a file, and hands back whether it is gone.
pub fn remove_file<R: Files>(rt: &R, name: &str) -> bool {
    retry::unlink(rt, name)
}

// Closes a file, and hands back whether that went well. The library closes a file where it is dropped, and tells no error of that; the
// system's number of the last call that failed does. It is set before by a look at the program's own name, to one that no close has.
fn close<R: Env, F: Drop>(rt: &R, file: F) -> bool {
    let mut name = [0u8; 1];
    let _ = rt.arg(0, &mut name);
    let before = last_error().raw_os_error();
    drop(file);
    last_error().raw_os_error() == before
}

// Makes a new file of a text, and hands back how many bytes it took. One that can't be written to its end is removed again. A file is
// closed once, whatever comes of it: after a signal it is closed all the same.
pub fn make_file<R: Files + Env>(rt: &R, name: &str, text: &[u8]) -> Result<usize, Unmade>
    ensures { IfOk result (λ n. n ≡ length text.now) }
{
    let mut file = retry::create(rt, name)?;
    let taken = retry::write_all(&mut file, text);
    let closed = close(rt, file);
    if taken == text.len() && closed {
        return Ok(taken);
    }
    remove_file(rt, name);
    Err(Unmade::Unwritten)
}
