//! What comes of a program, as it is printed.
use crate::job::Ran;
use std::io::Write;
use std::{fmt, io};
use v8_runner::Stop;
use v8_step::Ending;

/// A program's run, and the one with one step less.
#[derive(Drop)]
pub struct Report {
    pub whole: Ran,
    pub shorter: Ran,
}

impl Report {
    /// Prints a line of endings and steps, and then what the whole run put out to each stream, where it did.
    pub fn print(&self, rt: &impl Print) -> io::Result<()> {
        print!(rt; "{}", self.whole)?;
        if self.shorter.end.stop == Stop::Limit {
            print!(rt; ", {}", self.shorter)?;
        }
        println!(rt; "")?;
        print_bytes(rt, "", self.whole.out.bytes())?;
        print_bytes(rt, "to the error stream: ", self.whole.err.bytes())
    }
}

impl fmt::Display for Ran {
    fn fmt<W: fmt::Write>(&self, f: &mut fmt::Formatter<W>) -> fmt::Result {
        match self.end.stop {
            Stop::Limit => write!(f, "stopped")?,
            Stop::SinkFault => write!(f, "too much put out")?,
            Stop::Ended(Ending::Exit(status)) => write!(f, "exit {status}")?,
            Stop::Ended(Ending::Trap(number)) => write!(f, "trap {number}")?,
            Stop::Ended(Ending::Window) => write!(f, "window")?,
            Stop::Ended(Ending::Couple) => write!(f, "couple")?,
        }
        write!(f, " after {} steps", self.end.steps)
    }
}

/// Prints the bytes as they are, and a newline after them, where there are any.
pub fn print_bytes(rt: &impl Print, mark: &str, bytes: &[u8]) -> io::Result<()> {
    if bytes.is_empty() {
        return Ok(());
    }
    print!(rt; "{mark}")?;
    io::writer(rt).write_all(bytes)?;
    println!(rt; "")
}
