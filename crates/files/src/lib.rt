// What the programs of the gate share: their arguments, and the files that these name. No library of the checker knows of it.
//
// Both functions fill a buffer that the caller has, as far as it goes, and lend that part of it back. Nothing is said of what is
// in the buffer where the answer is an error or that there is nothing.
#![tactic(auto)]

ghost use Rattle.std.specs.Prelude.{◌≤◌, length, IfOk, IfSome};

use std::env::{Env, FillError};
use std::fs::File;
use std::io::{Error, ErrorKind, Read, Result};

// The i-th argument, or as much of it as there is room for, or nothing where there is no such argument.
pub fn argument<'a>(rt: &HostRuntime, i: usize, buffer: &'a mut [u8]) -> Option<&'a [u8]>
    ensures { IfSome result (λ text. length text.now ≤ length buffer.old) }
{
    match rt.arg(i, buffer) {
        Ok(n) => Some(&buffer[..n]),
        Err(FillError::TooLong) => Some(buffer),
        Err(FillError::NotPresent) => None,
    }
}

// The file with this path, which has to be text. The kit's files have no other names.
fn open(rt: &HostRuntime, path: &[u8]) -> Result<File> {
    match str::from_utf8(path) {
        Ok(path) => File::open(rt, path),
        Err(_) => Err(Error::from(ErrorKind::InvalidInput)),
    }
}

// The file with this path, or as much of it as there is room for.
pub fn read<'a>(rt: &HostRuntime, path: &[u8], buffer: &'a mut [u8]) -> Result<&'a [u8]>
    ensures { IfOk result (λ text. length text.now ≤ length buffer.old) }
{
    let mut file = open(rt, path)?;
    let mut n = 0;
    // (`read_exact` refuses a file that is shorter than the buffer.)
    while n < buffer.len() {
        let more = file.read(&mut buffer[n..])?;
        if more == 0 {
            break;
        }
        n += more;
    }
    Ok(&buffer[..n])
}
