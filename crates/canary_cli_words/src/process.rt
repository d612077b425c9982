//! The words that a process was given.
use std::alloc::Global;
use std::env::{self, Env, FillError};
use std::io;

// The words of a process after its first, under which it was called.
#[derive(Drop)]
struct BehindName<'a, R> {
    process: &'a R,
}

impl<R: Env> Env for BehindName<'_, R> {
    // The word at this place after the program's name: that of the process one place later.
    fn arg(&self, i: usize, buf: &mut [u8]) -> Result<usize, FillError> {
        match i.checked_add(1) {
            Some(place) => self.process.arg(place, buf),
            None => Err(FillError::NotPresent),
        }
    }

    // The variable of this name, as the process has it.
    fn var(&self, name: &str, buf: &mut [u8]) -> Result<usize, FillError> {
        self.process.var(name, buf)
    }

    // The variable at this place, as the process has it.
    fn var_at(&self, i: usize, buf: &mut [u8]) -> Result<usize, FillError> {
        self.process.var_at(i, buf)
    }
}

/// The words of the command line, without the program's name, which may be any bytes.
/// `InvalidData` if a word is not UTF-8, `OutOfMemory` if an allocation was refused.
pub fn words_of<R: Env>(process: &R, alloc: Global) -> io::Result<Vec<String>> {
    let words = env::args(&(BehindName { process }, alloc))?.collect(alloc)?;
    Ok(words)
}
