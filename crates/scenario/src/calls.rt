// The calls of a scenario, as a line writes them.
use crate::labels::Labelled;
use std::fmt;
use values::Setting;

// A seat and a key as written: they may be out of range.
#[derive(Clone, Copy)]
pub struct Spot {
    pub seat: u64,
    pub key: u64,
}

// What is to be done there. `with` is the number of the get whose context is used.
#[derive(Clone, Copy)]
pub enum Action {
    Put { value: Setting, with: Option<u64> },
    Delete { with: Option<u64> },
    Get,
    Send,
    Save,
    // `call` is the number of the send that gave the frame
    Deliver { call: u64 },
}

#[derive(Clone, Copy)]
pub struct Call {
    pub at: Spot,
    pub action: Action,
}

// How a line names a get, if it does.
#[derive(Clone, Copy)]
struct With(Option<u64>);

impl fmt::Display for Spot {
    fn fmt<W: fmt::Write>(&self, f: &mut fmt::Formatter<W>) -> fmt::Result {
        write!(f, "{} {}", self.seat, self.key)
    }
}

impl fmt::Display for With {
    fn fmt<W: fmt::Write>(&self, f: &mut fmt::Formatter<W>) -> fmt::Result {
        match self.0 {
            Some(call) => write!(f, " with {call}"),
            None => Ok(()),
        }
    }
}

impl fmt::Display for Call {
    fn fmt<W: fmt::Write>(&self, f: &mut fmt::Formatter<W>) -> fmt::Result {
        let Call { at, action } = *self;
        match action {
            Action::Put { value, with } => {
                write!(f, "put {at} {}{}", Labelled(value), With(with))
            }
            Action::Delete { with } => write!(f, "delete {at}{}", With(with)),
            Action::Get => write!(f, "get {at}"),
            Action::Send => write!(f, "send {at}"),
            Action::Save => write!(f, "save {at}"),
            Action::Deliver { call } => write!(f, "deliver {at} {call}"),
        }
    }
}
