// Makes the calls of a scenario, one after another.
ghost use Rattle.std.specs.Prelude.{◌≡◌, IfOk};
ghost use Rattle.replay.specs.Sessions.{Answers, Fresh, Makes, Names};

use crate::answers::{Answer, Made};
use crate::cockpit::Cockpit;
use crate::errors::{Failure, NotMade};
use crate::history::{Gift, History};
use crate::places::SeatKey;
use crate::seat_media::{Holding, Media};
use clock::Context;
use scenario::{Action, Call};
use std::alloc::{AllocError, Global};

// The seats and their media, the contexts and frames given so far, and how many calls were made.
#[derive(Drop)]
pub struct Session {
    alloc: Global,
    cockpit: Cockpit,
    media: Media,
    gets: History<Context>,
    sends: History<Vec<u8>>,
    calls: u64,
}

impl Session {
    // With no writes, and no call made.
    pub fn new(alloc: Global) -> Result<Session, AllocError>
        ensures { IfOk result Fresh }
    {
        Ok(Session {
            alloc,
            cockpit: Cockpit::new(alloc)?,
            media: Media::new(alloc)?,
            gets: History::new(alloc),
            sends: History::new(alloc),
            calls: 0,
        })
    }

    // The context that a get of the key gave; where none is named, that of one who has seen nothing.
    fn context(&self, with: Option<u64>, key: u64) -> Result<Context, NotMade>
        ensures { Names self.now with key result }
    {
        match with {
            None => Ok(Context::none()),
            Some(call) => self
                .gets
                .find(call, key)
                .copied()
                .ok_or(NotMade::NoSuchGet { call, key }),
        }
    }

    // Makes a call, which is the one with this number.
    fn answer(&mut self, number: u64, call: &Call) -> Result<Answer, Failure>
        ensures calls { self.new.calls ≡ self.old.calls }
        ensures answers { Answers call.now number self.old self.new result }
    {
        let Call { at, action } = *call;
        match action {
            Action::Put { value, with } => {
                let context = self.context(with, at.key)?;
                Ok(Answer::Written(self.cockpit.put(at, value, &context)?))
            }
            Action::Delete { with } => {
                let context = self.context(with, at.key)?;
                self.cockpit.delete(at, &context)?;
                Ok(Answer::Done)
            }
            Action::Get => {
                let reading = self.cockpit.get(at)?;
                let gift = Gift {
                    call: number,
                    key: at.key,
                    what: reading.context,
                };
                self.gets.add(gift).map_err(AllocError::from)?;
                Ok(Answer::Seen(reading))
            }
            Action::Send => {
                let frame = self.cockpit.send(at)?;
                let gift = Gift {
                    call: number,
                    key: at.key,
                    what: Vec::from_slice(self.alloc, frame.used())?,
                };
                self.sends.add(gift).map_err(AllocError::from)?;
                Ok(Answer::Sent(frame))
            }
            Action::Save => {
                let place = SeatKey::try_from(at)?;
                let frame = self.cockpit.send(at)?;
                self.media.save(at.seat, place.key, frame.used())?;
                let medium = self.media.medium(place);
                Ok(Answer::Saved(Holding::of(self.alloc, medium)?))
            }
            Action::Deliver { call } => {
                let key = at.key;
                let frame = self
                    .sends
                    .find(call, key)
                    .ok_or(NotMade::NoSuchSend { call, key })?;
                self.cockpit.deliver(at, frame)?;
                Ok(Answer::Done)
            }
        }
    }

    // Makes a call, unless the get or send that it names is not there.
    pub fn make(&mut self, call: &Call) -> Result<Made, NotMade>
        ensures { Makes call.now self.old self.new result }
    {
        let number = self.calls.saturating_add(1);
        // the one place where a refusal, which is an answer, parts from the rest: no `?` does that
        let answer = match self.answer(number, call) {
            Ok(answer) => Ok(answer),
            Err(Failure::Refused(refusal)) => Err(refusal),
            Err(Failure::Unmade(why)) => return Err(why),
        };
        self.calls = number;
        Ok(Made { number, answer })
    }
}
