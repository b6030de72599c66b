// A script as it is carried out: the house that is open, if any.
use crate::fault::{CallError, Fault};
use crate::house::House;
use crate::make::{Make, Rate};
use crate::script::Request;
use crate::show::Show;
use crate::watch::Watch;
use crate::wired::{KeyLink, StationLink, Wired};
use score::{Flat, Rating, Score};
use std::alloc::{AllocError, Global};
use std::fmt;
use std::fmt::Write;

// A house of each level.
#[derive(Drop)]
enum Hall {
    NumberedFlat(House<StationLink, Flat>),
    Numbered(House<StationLink, Score>),
    KeyedFlat(House<KeyLink, Flat>),
    Keyed(House<KeyLink, Score>),
}

impl Hall {
    // Stations by number or by key, and flat or by score, as the line says.
    fn open(heap: Global, make: Make<'_>) -> Result<Hall, Fault> {
        match (make.by_key(), make.rate()) {
            (false, Rate::Flat) => Ok(Hall::NumberedFlat(House::new(heap, make)?)),
            (false, Rate::Score) => Ok(Hall::Numbered(House::new(heap, make)?)),
            (true, Rate::Flat) => Ok(Hall::KeyedFlat(House::new(heap, make)?)),
            (true, Rate::Score) => Ok(Hall::Keyed(House::new(heap, make)?)),
        }
    }

    // Obeys a call, and writes its answer. Kept as four arms, here and below: each has a house of another type, a
    // closure takes only one, and a dyn value may not be handed out.
    fn obey(
        &mut self,
        watch: &mut Watch<'_>,
        request: Request<'_>,
        out: &mut String,
    ) -> Result<(), Fault> {
        match self {
            Hall::NumberedFlat(house) => answer(watch, house, request, out),
            Hall::Numbered(house) => answer(watch, house, request, out),
            Hall::KeyedFlat(house) => answer(watch, house, request, out),
            Hall::Keyed(house) => answer(watch, house, request, out),
        }
    }
}

impl fmt::Display for Hall {
    fn fmt<W: fmt::Write>(&self, f: &mut fmt::Formatter<W>) -> fmt::Result {
        match self {
            Hall::NumberedFlat(house) => house.fmt(f),
            Hall::Numbered(house) => house.fmt(f),
            Hall::KeyedFlat(house) => house.fmt(f),
            Hall::Keyed(house) => house.fmt(f),
        }
    }
}

// Obeys a call, and writes its answer to the block of its line. The call is read and the block written: no value holds both.
fn answer<L: Wired, R: Rating>(
    watch: &mut Watch<'_>,
    house: &mut House<L, R>,
    request: Request<'_>,
    out: &mut String,
) -> Result<(), Fault> {
    match request.obey(watch, house) {
        Ok(answer) => writeln!(out, "= {answer}")?,
        Err(CallError::Refused(refusal)) => writeln!(out, "= {refusal}")?,
        Err(CallError::Fault(fault)) => return Err(fault),
    }
    Ok(())
}

// The words of a line: what stands before a `#`, parted by spaces.
fn words_of<'a>(heap: Global, line: &'a str) -> Result<Vec<&'a str>, AllocError> {
    let text = line.split_once('#').map_or(line, |(before, _)| before);
    text.split_whitespace().collect(heap)
}

// Writes the words joined again by single spaces.
fn write_words(words: &[&str], out: &mut String) -> Result<(), AllocError> {
    out.push_str(">")?;
    for word in words {
        write!(out, " {word}")?;
    }
    out.push_str("\n")
}

#[derive(Drop)]
pub(crate) struct Session<'a> {
    heap: Global,
    watch: Watch<'a>,
    answers: bool,
    hall: Option<Hall>,
}

impl<'a> Session<'a> {
    pub(crate) fn new(rt: &'a HostRuntime, answers: bool) -> Session<'a> {
        Session {
            heap: rt.alloc(),
            watch: Watch::new(rt),
            answers,
            hall: None,
        }
    }

    // The nanoseconds of the last line's call.
    pub(crate) fn spent(&mut self) -> u64 {
        self.watch.take()
    }

    // Opens a new house; a refused one leaves the former in place.
    fn make(&mut self, words: &[&str], out: &mut String) -> Result<(), Fault> {
        let make = Make::read(self.heap, words)?;
        writeln!(out, "> {make}")?;
        if let Err(refusal) = make.judge() {
            writeln!(out, "= {refusal}")?;
            return Ok(());
        }
        self.hall = Some(Hall::open(self.heap, make)?);
        out.push_str("= done\n")?;
        Ok(())
    }

    fn obey(&mut self, request: Request<'_>, out: &mut String) -> Result<(), Fault> {
        match &mut self.hall {
            Some(hall) => hall.obey(&mut self.watch, request, out),
            None => Ok(out.push_str("= no engine\n")?),
        }
    }

    // What every table then holds.
    fn show(&self, out: &mut String) -> Result<(), AllocError> {
        if let Some(hall) = &self.hall {
            write!(out, "{hall}")?;
        }
        out.push_str("\n")
    }

    // The block of one line of the script; an empty line does nothing.
    pub(crate) fn line(&mut self, line: &str) -> Result<String, Fault> {
        let mut out = String::new(self.heap);
        let words = words_of(self.heap, line)?;
        match words.as_slice() {
            [] => return Ok(out),
            ["make", rest @ ..] => self.make(rest, &mut out)?,
            [name, rest @ ..] => {
                let request = Request {
                    call: name.parse()?,
                    words: rest,
                };
                write_words(words.as_slice(), &mut out)?;
                self.obey(request, &mut out)?;
            }
        }
        if !self.answers {
            self.show(&mut out)?;
        }
        Ok(out)
    }
}
