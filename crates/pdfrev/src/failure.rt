// Why a command was not done, and how a person is told.
use crate::help::USAGE;
use faults::fault::Fault;
use reports::advice::advice;
use reports::command::Usage;
use reports::trouble::Trouble;
use std::alloc::{AllocError, AllocFailed};
use std::io;
use std::io::Write;

#[derive(Drop)]
pub enum Failure {
    // The words ask for nothing that there is.
    Usage,
    NoMemory,
    // The system refused to read the file, to write a new one, or to write the output.
    Unread(io::Error),
    Unwritten(io::Error),
    System(io::Error),
    // There is a file of the name already.
    Exists,
    Refused(Fault),
    // The file is no record: what is wrong, the bytes around the place, and how many characters stand before it.
    NoRecord {
        fault: Fault,
        text: Vec<u8>,
        mark: usize,
    },
}

impl Failure {
    // Writes to the standard error: a person's words first, the fault's figures behind.
    pub fn tell(&self, rt: &HostRuntime) -> io::Result<()> {
        let mut out = rt.stderr();
        match self {
            Failure::Usage => out.write_all(USAGE),
            Failure::NoMemory => writeln!(out, "pdfrev: there is too little memory"),
            Failure::Unread(error) => writeln!(out, "pdfrev: the file cannot be read: {error}"),
            Failure::Unwritten(error) => {
                writeln!(out, "pdfrev: the new file cannot be written: {error}")
            }
            Failure::System(error) => {
                writeln!(out, "pdfrev: the answer cannot be written: {error}")
            }
            Failure::Exists => writeln!(
                out,
                "pdfrev: a file of that name is there already, and is left as it is"
            ),
            Failure::Refused(fault) => tell_fault(*fault, &mut out),
            Failure::NoRecord { fault, text, mark } => {
                tell_fault(*fault, &mut out)?;
                let place = fault.place;
                writeln!(out, "at byte {place}:")?;
                out.write_all(text.as_slice())?;
                writeln!(out)?;
                let mark = *mark;
                writeln!(out, "{:mark$}^", "")
            }
        }
    }
}

fn tell_fault<W: Write>(fault: Fault, out: &mut W) -> io::Result<()> {
    let words = advice(fault.reason);
    writeln!(out, "pdfrev: {words}")?;
    writeln!(out, "{fault}")
}

// By hand: a derived `From` keeps the error that it came from, which `Usage` and `NoMemory` don't, and wants a text
// for each variant, while a part of what is told here is bytes.
impl From<Usage> for Failure {
    fn from(_e: Usage) -> Failure {
        Failure::Usage
    }
}

impl From<io::Error> for Failure {
    fn from(e: io::Error) -> Failure {
        Failure::System(e)
    }
}

impl From<AllocError> for Failure {
    fn from(_e: AllocError) -> Failure {
        Failure::NoMemory
    }
}

impl<T: Drop> From<AllocFailed<T>> for Failure {
    fn from(_e: AllocFailed<T>) -> Failure {
        Failure::NoMemory
    }
}

impl From<Fault> for Failure {
    fn from(f: Fault) -> Failure {
        Failure::Refused(f)
    }
}

impl From<Trouble> for Failure {
    fn from(t: Trouble) -> Failure {
        match t {
            Trouble::NoMemory => Failure::NoMemory,
            Trouble::Refused(fault) => Failure::Refused(fault),
        }
    }
}
