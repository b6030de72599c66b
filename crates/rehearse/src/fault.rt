// Why a script is not carried on, and why a call is refused.
use std::alloc::{AllocError, AllocFailed};
use std::error::Error;
use std::fmt;
use tables::TableError;

// A line that is not understood, with what was expected in its place; a call that is not there yet; or want of memory.
#[derive(Clone, Copy, Debug)]
pub(crate) enum Fault {
    Expected(&'static str),
    NotYet,
    Memory,
}

impl fmt::Display for Fault {
    fn fmt<W: fmt::Write>(&self, f: &mut fmt::Formatter<W>) -> fmt::Result {
        match self {
            Fault::Expected(expected) => write!(f, "expected {expected}"),
            Fault::NotYet => f.write_str("this call is not there yet"),
            Fault::Memory => f.write_str("no memory is left"),
        }
    }
}

impl From<AllocError> for Fault {
    fn from(_error: AllocError) -> Fault {
        Fault::Memory
    }
}

impl<T: Drop> From<AllocFailed<T>> for Fault {
    fn from(_failed: AllocFailed<T>) -> Fault {
        Fault::Memory
    }
}

impl From<TableError> for Fault {
    fn from(error: TableError) -> Fault {
        match error {
            TableError::Rows => Fault::Expected("rows within their bounds"),
            TableError::Memory => Fault::Memory,
        }
    }
}

impl From<link::Refusal> for Fault {
    fn from(refusal: link::Refusal) -> Fault {
        match refusal {
            link::Refusal::Spacing => Fault::Expected("a spacing of at most an hour"),
        }
    }
}

impl Fault {
    // The error that names the line.
    pub(crate) fn at(self, line: usize) -> LineFault {
        LineFault { line, fault: self }
    }
}

// A fault with the number of its line.
#[derive(Clone, Copy, Debug)]
pub(crate) struct LineFault {
    line: usize,
    fault: Fault,
}

impl fmt::Display for LineFault {
    fn fmt<W: fmt::Write>(&self, f: &mut fmt::Formatter<W>) -> fmt::Result {
        write!(f, "line {}: {}", self.line, self.fault)
    }
}

impl Error for LineFault {}

// What a call is refused for.
#[derive(Clone, Copy)]
pub(crate) enum Refusal {
    // A timeout, a delay or a spacing is out of bounds.
    Numbers,
    // A table has no rows, or more than its bound.
    Rows,
    // A part is of another engine number.
    Engine,
    // The time is too late.
    Time,
    // A list is out of order, has a repeat or is longer than its table.
    List,
}

impl From<Refusal> for u8 {
    fn from(refusal: Refusal) -> u8 {
        match refusal {
            Refusal::Numbers => 1,
            Refusal::Rows => 2,
            Refusal::Engine => 3,
            Refusal::Time => 4,
            Refusal::List => 5,
        }
    }
}

impl fmt::Display for Refusal {
    fn fmt<W: fmt::Write>(&self, f: &mut fmt::Formatter<W>) -> fmt::Result {
        write!(f, "refused {}", u8::from(*self))
    }
}

// Why a call has no answer of its own: it is refused, or the script is not carried on.
#[derive(Clone, Copy)]
pub(crate) enum CallError {
    Refused(Refusal),
    Fault(Fault),
}

impl From<Refusal> for CallError {
    fn from(refusal: Refusal) -> CallError {
        CallError::Refused(refusal)
    }
}

impl From<Fault> for CallError {
    fn from(fault: Fault) -> CallError {
        CallError::Fault(fault)
    }
}
