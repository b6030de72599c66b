// The line that makes a house: its numbers, its link, its draw source and its level.
use crate::fault::{Fault, Refusal};
use crate::source::Words;
use crate::term::{number, number_or, parts};
use std::alloc::Global;
use std::collections::HashSet;
use std::fmt;
use std::str::FromStr;

// The longest timeout, delay and spacing, in nanoseconds: one hour.
const HOUR: u64 = 3_600_000_000_000;

// How stations and records are known, and how stations are rated.
#[derive(Clone, Copy)]
pub(crate) enum Level {
    SingleHouse,
    Circuit,
    Festival,
}

impl FromStr for Level {
    type Err = Fault;

    fn from_str(text: &str) -> Result<Level, Fault> {
        match text {
            "single-house" => Ok(Level::SingleHouse),
            "circuit" => Ok(Level::Circuit),
            "festival" => Ok(Level::Festival),
            _ => Err(Fault::Expected("level=single-house, circuit or festival")),
        }
    }
}

impl fmt::Display for Level {
    fn fmt<W: fmt::Write>(&self, f: &mut fmt::Formatter<W>) -> fmt::Result {
        f.write_str(match self {
            Level::SingleHouse => "single-house",
            Level::Circuit => "circuit",
            Level::Festival => "festival",
        })
    }
}

#[derive(Clone, Copy)]
pub(crate) enum Rate {
    Score,
    Flat,
}

impl FromStr for Rate {
    type Err = Fault;

    fn from_str(text: &str) -> Result<Rate, Fault> {
        match text {
            "score" => Ok(Rate::Score),
            "flat" => Ok(Rate::Flat),
            _ => Err(Fault::Expected("rating=score or rating=flat")),
        }
    }
}

impl fmt::Display for Rate {
    fn fmt<W: fmt::Write>(&self, f: &mut fmt::Formatter<W>) -> fmt::Result {
        f.write_str(match self {
            Rate::Score => "score",
            Rate::Flat => "flat",
        })
    }
}

// Lanes with their spacing, or an outbox with room for a number of bytes.
#[derive(Clone, Copy)]
pub(crate) enum Wire {
    Lane(u64),
    Outbox(u64),
}

impl FromStr for Wire {
    type Err = Fault;

    fn from_str(text: &str) -> Result<Wire, Fault> {
        let wire = match text.split_once(':') {
            Some(("lane", spacing)) => number(spacing).map(|spacing| Wire::Lane(spacing)),
            Some(("outbox", bytes)) => number(bytes).map(|bytes| Wire::Outbox(bytes)),
            _ => None,
        };
        wire.ok_or(Fault::Expected("link=lane:SPACING or link=outbox:BYTES"))
    }
}

impl fmt::Display for Wire {
    fn fmt<W: fmt::Write>(&self, f: &mut fmt::Formatter<W>) -> fmt::Result {
        match self {
            Wire::Lane(spacing) => write!(f, "lane:{spacing}"),
            Wire::Outbox(bytes) => write!(f, "outbox:{bytes}"),
        }
    }
}

// The number of rows of each table.
#[derive(Clone, Copy)]
pub(crate) struct Rows {
    pub(crate) roster: u64,
    pub(crate) blocked: u64,
    live: u64,
    waiting: u64,
    targets: u64,
    slips: u64,
}

const MOST_ROWS: Rows = Rows {
    roster: 1024,
    blocked: 1024,
    live: 1024,
    waiting: 4096,
    targets: 4096,
    slips: 2048,
};

impl Rows {
    // Six numbers between commas. What was expected is said by who asks, as for `source_of`, which wants memory.
    fn read(text: &str) -> Option<Rows> {
        let mut numbers = text.split(',').map(|part| number(part));
        let rows = Rows {
            roster: numbers.next()??,
            blocked: numbers.next()??,
            live: numbers.next()??,
            waiting: numbers.next()??,
            targets: numbers.next()??,
            slips: numbers.next()??,
        };
        match numbers.next() {
            Some(_) => None,
            None => Some(rows),
        }
    }

    // Whether each table has a row, and no more than its bound.
    fn fit(&self) -> bool {
        let rows = [
            (self.roster, MOST_ROWS.roster),
            (self.blocked, MOST_ROWS.blocked),
            (self.live, MOST_ROWS.live),
            (self.waiting, MOST_ROWS.waiting),
            (self.targets, MOST_ROWS.targets),
            (self.slips, MOST_ROWS.slips),
        ];
        rows.iter().all(|(rows, most)| 0 < *rows && *rows <= *most)
    }
}

impl fmt::Display for Rows {
    fn fmt<W: fmt::Write>(&self, f: &mut fmt::Formatter<W>) -> fmt::Result {
        write!(f, "{},{},{},", self.roster, self.blocked, self.live)?;
        write!(f, "{},{},{}", self.waiting, self.targets, self.slips)
    }
}

fn words_of(heap: Global, text: &str) -> Result<Vec<u64>, Fault> {
    if text.is_empty() {
        return Ok(Vec::new(heap));
    }
    parts(
        heap,
        text,
        |part| number(part),
        "a list of words, as list:5,1001",
    )
}

// The words of a source. Memory is for its list alone, here and where other text is parted.
fn source_of(heap: Global, text: &str) -> Result<Words, Fault> {
    match text.split_once(':') {
        Some(("list", words)) => Ok(Words::List(words_of(heap, words)?)),
        Some(("xorshift", seed)) => Ok(Words::Xorshift(number_or(seed, "a seed, as xorshift:7")?)),
        _ => Err(Fault::Expected("source=list:WORDS or source=xorshift:SEED")),
    }
}

// What stands before the `=` of a word.
fn name_of<'a>(word: &'a str) -> &'a str {
    word.split_once('=').map_or(word, |(name, _)| name)
}

// Whether two words have the same name.
fn repeated(heap: Global, words: &[&str]) -> Result<bool, Fault> {
    let mut names = HashSet::new(heap);
    for word in words {
        if !names.insert(name_of(*word))? {
            return Ok(true);
        }
    }
    Ok(false)
}

// What was read so far of the words after `make`.
#[derive(Drop)]
struct Draft<'a> {
    engine: u32,
    timeout: Option<u64>,
    delay: Option<u64>,
    me: &'a str,
    rows: Rows,
    link: Option<Wire>,
    source: Option<Words>,
    level: Option<Level>,
    rating: Option<Rate>,
}

impl<'a> Draft<'a> {
    fn new() -> Draft<'a> {
        Draft {
            engine: 1,
            timeout: None,
            delay: None,
            me: "-",
            rows: MOST_ROWS,
            link: None,
            source: None,
            level: None,
            rating: None,
        }
    }

    // Takes over one `name=value`.
    fn set(&mut self, heap: Global, word: &'a str) -> Result<(), Fault> {
        let (name, value) = word
            .split_once('=')
            .ok_or(Fault::Expected("name=value after make"))?;
        match name {
            "engine" => self.engine = number_or(value, "engine=N, a 32-bit number")?,
            "timeout" => self.timeout = Some(number_or(value, "timeout=N in nanoseconds")?),
            "delay" => self.delay = Some(number_or(value, "delay=N in nanoseconds")?),
            "me" => self.me = value,
            "rows" => self.rows = Rows::read(value).ok_or(Fault::Expected(
                "rows= and six numbers",
            ))?,
            "link" => self.link = Some(value.parse()?),
            "source" => self.source = Some(source_of(heap, value)?),
            "level" => self.level = Some(value.parse()?),
            "rating" => self.rating = Some(value.parse()?),
            _ => return Err(Fault::Expected(
                "engine, timeout, delay, me, rows, link, source, level or rating",
            )),
        }
        Ok(())
    }

    // The whole line, where nothing is missing.
    fn finish(self) -> Result<Make<'a>, Fault> {
        let (Some(timeout), Some(delay)) = (self.timeout, self.delay) else {
            return Err(Fault::Expected("timeout=N and delay=N"));
        };
        let (Some(link), Some(source)) = (self.link, self.source) else {
            return Err(Fault::Expected("link= and source="));
        };
        Ok(Make {
            engine: self.engine,
            timeout,
            delay,
            me: self.me,
            rows: self.rows,
            link,
            source,
            level: self.level,
            rating: self.rating,
        })
    }
}

// What a `make` line says. The own station is read once the level is known.
#[derive(Drop)]
pub(crate) struct Make<'a> {
    pub(crate) engine: u32,
    timeout: u64,
    delay: u64,
    pub(crate) me: &'a str,
    pub(crate) rows: Rows,
    pub(crate) link: Wire,
    pub(crate) source: Words,
    level: Option<Level>,
    rating: Option<Rate>,
}

impl<'a> Make<'a> {
    // What the words after `make` say.
    pub(crate) fn read(heap: Global, words: &[&'a str]) -> Result<Make<'a>, Fault> {
        if repeated(heap, words)? {
            return Err(Fault::Expected("each name once after make"));
        }
        let mut draft = Draft::new();
        for word in words {
            draft.set(heap, *word)?;
        }
        draft.finish()
    }
}

impl Make<'_> {
    fn in_bounds(&self) -> bool {
        let spacing = match self.link {
            Wire::Lane(spacing) => spacing,
            Wire::Outbox(_) => 0,
        };
        0 < self.timeout && self.timeout <= HOUR && self.delay <= HOUR && spacing <= HOUR
    }

    // Refuses with the smallest number that fits.
    pub(crate) fn judge(&self) -> Result<(), Refusal> {
        if !self.in_bounds() {
            return Err(Refusal::Numbers);
        }
        if !self.rows.fit() {
            return Err(Refusal::Rows);
        }
        Ok(())
    }

    // Whether stations are known by public key: for a circuit and a festival.
    pub(crate) fn by_key(&self) -> bool {
        matches!(self.level, Some(Level::Circuit) | Some(Level::Festival))
    }

    // How stations are rated: as the line says, else flat for a single house alone.
    pub(crate) fn rate(&self) -> Rate {
        match (self.rating, self.level) {
            (Some(rate), _) => rate,
            (None, Some(Level::SingleHouse)) => Rate::Flat,
            (None, _) => Rate::Score,
        }
    }
}

// The line in its full form.
impl fmt::Display for Make<'_> {
    fn fmt<W: fmt::Write>(&self, f: &mut fmt::Formatter<W>) -> fmt::Result {
        write!(
            f,
            "make engine={} timeout={} delay={}",
            self.engine, self.timeout, self.delay
        )?;
        write!(
            f,
            " me={} rows={} link={} source={}",
            self.me, self.rows, self.link, self.source
        )?;
        if let Some(level) = self.level {
            write!(f, " level={level}")?;
        }
        if let Some(rating) = self.rating {
            write!(f, " rating={rating}")?;
        }
        Ok(())
    }
}
