// The arguments of a program, and what it prints.
#![tactic(auto)]

ghost use Rattle.std.specs.Prelude.{IfSome, OnOk};
ghost use Rattle.std.specs.Io.KnownBytes.{Appends};
ghost use Rattle.io.specs.Counts.{IsPrefixLen};

use disk::Reason;
use std::env::{Env, FillError};
use std::io;
use std::io::Write;

// Copies the argument of that number into a buffer, and answers its length; the program's own name is number 0. One that is longer than the buffer
// is taken for an empty one.
pub fn argument(rt: &impl Env, number: usize, buffer: &mut [u8]) -> Option<usize>
    ensures { IfSome result (λ n. IsPrefixLen n buffer.new) }
{
    match rt.arg(number, buffer) {
        Ok(n) => Some(n),
        Err(FillError::TooLong) => Some(0),
        Err(FillError::NotPresent) => None,
    }
}

// Prints a text, as `io::writer` prints it on standard output, and says on standard error why where it cannot be printed.
pub fn print<W: Write>(rt: &impl Eprint, out: &mut W, text: &[u8]) -> io::Result<()>
    ensures { OnOk result (Appends (W.contents out.old) (W.contents out.new) text.now) }
{
    let printed = out.write_all(text);
    if let Err(error) = printed {
        let _ = eprintln!(rt; "standard output: {}", Reason { error });
    }
    printed
}
