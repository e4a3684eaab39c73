// What a call answers.
ghost use Rattle.std.specs.Prelude.{◌≡◌, ◌≤◌, take};

use crate::seat_media::Holding;
use clock::Context;
use context_frames::write_context;
use dvvset::{Dot, Sibling};
use refusals::Refusal;
use scenario::Labelled;
use std::fmt;
use values::Setting;

// What a get of a key tells: the first `count` of the siblings, and the context.
#[derive(Clone, Copy)]
pub struct Reading {
    pub key: u8,
    pub siblings: [Sibling<Setting>; 96],
    pub count: usize,
    pub context: Context,
    ghost keys: { key ≤ 15 },
    ghost within: { count ≤ 96 },
}

// The frame that a send gives: the first `length` of the bytes.
#[derive(Clone, Copy)]
pub struct Frame {
    pub bytes: [u8; 1756],
    pub length: usize,
    ghost within: { length ≤ 1756 },
}

#[derive(Drop)]
pub enum Answer {
    // a put, with the dot of the write
    Written(Dot),
    // a delete or a delivery
    Done,
    Seen(Reading),
    Sent(Frame),
    Saved(Holding),
}

// A call that was made: its number, and its answer.
#[derive(Drop)]
pub struct Made {
    pub number: u64,
    pub answer: Result<Answer, Refusal>,
}

// A dot that is shown.
#[derive(Clone, Copy)]
struct ShownDot(Dot);

// Bytes that are shown: how many, and below that in hexadecimal, sixteen to a line.
#[derive(Clone, Copy)]
struct Bytes<'a>(&'a [u8]);

impl Reading {
    // The siblings that it tells.
    pub fn told(&self) -> &[Sibling<Setting>]
        ensures { result.now ≡ take self.now.count self.now.siblings }
    {
        &self.siblings[..self.count]
    }
}

impl Frame {
    // The bytes in use.
    pub fn used(&self) -> &[u8]
        ensures { result.now ≡ take self.now.length self.now.bytes }
    {
        &self.bytes[..self.length]
    }
}

impl fmt::Display for ShownDot {
    fn fmt<W: fmt::Write>(&self, f: &mut fmt::Formatter<W>) -> fmt::Result {
        let Dot { column, counter } = self.0;
        write!(f, "column {column} counter {counter}")
    }
}

impl fmt::Display for Bytes<'_> {
    fn fmt<W: fmt::Write>(&self, f: &mut fmt::Formatter<W>) -> fmt::Result {
        write!(f, "{} bytes", self.0.len())?;
        for line in self.0.chunks(16) {
            f.write_str("\n   ")?;
            for byte in line {
                write!(f, " {byte:02X}")?;
            }
        }
        Ok(())
    }
}

impl fmt::Display for Reading {
    fn fmt<W: fmt::Write>(&self, f: &mut fmt::Formatter<W>) -> fmt::Result {
        match self.count {
            0 => f.write_str("no values"),
            1 => f.write_str("1 value"),
            count => write!(f, "{count} values"),
        }?;
        for sibling in self.told() {
            write!(
                f,
                "\n    {}: {}",
                ShownDot(sibling.dot),
                Labelled(sibling.value)
            )?;
        }
        // the context as it is handed over
        // memory that the call is lent, as long as any context
        let mut bytes = [0; 196];
        let length = write_context(self.key, &self.context, &mut bytes).unwrap();
        write!(f, "\n    context: {}", Bytes(&bytes[..length]))
    }
}

impl fmt::Display for Holding {
    fn fmt<W: fmt::Write>(&self, f: &mut fmt::Formatter<W>) -> fmt::Result {
        f.write_str("done")?;
        for (key, frame) in &self.frames {
            write!(f, "\n    key {key}: {}", Bytes(frame))?;
        }
        write!(f, "\n    left: {} bytes", self.left)
    }
}

impl fmt::Display for Answer {
    fn fmt<W: fmt::Write>(&self, f: &mut fmt::Formatter<W>) -> fmt::Result {
        match self {
            Answer::Written(dot) => write!(f, "{}", ShownDot(*dot)),
            Answer::Done => f.write_str("done"),
            Answer::Seen(reading) => write!(f, "{reading}"),
            Answer::Sent(frame) => write!(f, "{}", Bytes(frame.used())),
            Answer::Saved(holding) => write!(f, "{holding}"),
        }
    }
}

impl fmt::Display for Made {
    fn fmt<W: fmt::Write>(&self, f: &mut fmt::Formatter<W>) -> fmt::Result {
        match &self.answer {
            Ok(answer) => write!(f, "{answer}"),
            Err(refusal) => write!(f, "refused {}", refusal.number()),
        }
    }
}
