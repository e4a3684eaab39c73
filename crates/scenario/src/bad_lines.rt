// What is wrong with a line.
use std::fmt;

// A part of a call that a word stands for.
#[derive(Clone, Copy)]
pub enum Part {
    Seat,
    Key,
    Measure,
    Label,
    CallNumber,
}

#[derive(Clone, Copy)]
pub enum BadLine<'a> {
    NoSuchCall(&'a str),
    Missing(Part),
    Malformed(Part, &'a str),
    Superfluous(&'a str),
}

impl fmt::Display for Part {
    fn fmt<W: fmt::Write>(&self, f: &mut fmt::Formatter<W>) -> fmt::Result {
        f.write_str(match self {
            Part::Seat => "seat",
            Part::Key => "key",
            Part::Measure => "measure",
            Part::Label => "label",
            Part::CallNumber => "call number",
        })
    }
}

impl fmt::Display for BadLine<'_> {
    fn fmt<W: fmt::Write>(&self, f: &mut fmt::Formatter<W>) -> fmt::Result {
        match *self {
            BadLine::NoSuchCall(word) => write!(f, "no such call: {word}"),
            BadLine::Missing(part) => write!(f, "the {part} is missing"),
            BadLine::Malformed(part, word) => write!(f, "bad {part}: {word}"),
            BadLine::Superfluous(word) => write!(f, "a word too many: {word}"),
        }
    }
}
