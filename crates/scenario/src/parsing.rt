// Reads a line as a call.
ghost use Rattle.std.specs.Prelude.{◌≡◌, [], ◌∷◌, MatchOption, MatchResult, Result};
ghost use Rattle.std.specs.Option.{ok_or};
ghost use Rattle.std.specs.Result.{result_ok};
ghost use Rattle.scenario.specs.Labels.{label_of};
ghost use Rattle.scenario.specs.Parsing.{call_of, said, words};

use crate::bad_lines::{BadLine, Part};
use crate::calls::{Action, Call, Spot};
use crate::labels::padded;
use std::str::{FromStr, SplitAsciiWhitespace};
use values::Setting;

// The words of a line that are not read yet.
#[derive(Drop)]
struct Words<'a> {
    rest: SplitAsciiWhitespace<'a>,
}

// What a word stands for, if it can be read as that.
fn read<T: FromStr>(part: Part, word: &str) -> Result<T, BadLine<'_>>
where
    T::Err: Drop,
    ensures { (r : Result T T.Err) × T.from_str_gives word.entry.now r × (result ≡ ok_or (result_ok r) (BadLine.Malformed part word.entry)) }
{
    word.parse().ok().ok_or(BadLine::Malformed(part, word))
}

impl<'a> Words<'a> {
    ghost use Rattle.scenario.specs.Parsing.{delete, deliver, ended, left, measure_of, named, number_of, plain, put, reading, setting, spot, told};

    fn next(&mut self) -> Option<&'a str>
        ensures { MatchOption result ((left self.old ≡ []) × (left self.new ≡ [])) (λ w. left self.old ≡ w.now ∷ left self.new) }
    {
        self.rest.next()
    }

    fn word(&mut self, part: Part) -> Result<&'a str, BadLine<'a>>
        ensures { MatchResult result (λ w. left self.old ≡ w.now ∷ left self.new) (λ e. (left self.old ≡ []) × (left self.new ≡ []) × (e ≡ BadLine.Missing part)) }
    {
        self.next().ok_or(BadLine::Missing(part))
    }

    // Numbers and measures are read by `read`; each has a clause of its own, in numbers and in signed ones.
    fn number(&mut self, part: Part) -> Result<u64, BadLine<'a>>
        ensures { told result (left self.new) ≡ reading part number_of (left self.old) }
    {
        let word = self.word(part)?;
        read(part, word)
    }

    fn measure(&mut self) -> Result<i32, BadLine<'a>>
        ensures { told result (left self.new) ≡ reading Part.Measure measure_of (left self.old) }
    {
        let word = self.word(Part::Measure)?;
        read(Part::Measure, word)
    }

    fn label(&mut self) -> Result<[u8; 12], BadLine<'a>>
        ensures { told result (left self.new) ≡ reading Part.Label label_of (left self.old) }
    {
        let word = self.word(Part::Label)?;
        padded(word.as_bytes()).ok_or(BadLine::Malformed(Part::Label, word))
    }

    // Each part of a call has a reader of a few lines. Some are alike in shape and read other words; none is a special case of another.
    fn spot(&mut self) -> Result<Spot, BadLine<'a>>
        ensures { told result (left self.new) ≡ spot (left self.old) }
    {
        let seat = self.number(Part::Seat)?;
        let key = self.number(Part::Key)?;
        Ok(Spot { seat, key })
    }

    fn setting(&mut self) -> Result<Setting, BadLine<'a>>
        ensures { told result (left self.new) ≡ setting (left self.old) }
    {
        let measure = self.measure()?;
        let label = self.label()?;
        Ok(Setting { measure, label })
    }

    // The number behind `with`, or none at the end of the line.
    fn with(&mut self) -> Result<Option<u64>, BadLine<'a>>
        ensures { told result (left self.new) ≡ named (left self.old) }
    {
        match self.next() {
            None => Ok(None),
            Some("with") => Ok(Some(self.number(Part::CallNumber)?)),
            Some(word) => Err(BadLine::Superfluous(word)),
        }
    }

    fn end(&mut self) -> Result<(), BadLine<'a>>
        ensures { told result (left self.new) ≡ ended (left self.old) }
    {
        match self.next() {
            None => Ok(()),
            Some(word) => Err(BadLine::Superfluous(word)),
        }
    }

    fn put(&mut self) -> Result<Call, BadLine<'a>>
        ensures { told result (left self.new) ≡ put (left self.old) }
    {
        let at = self.spot()?;
        let value = self.setting()?;
        let with = self.with()?;
        Ok(Call {
            at,
            action: Action::Put { value, with },
        })
    }

    fn delete(&mut self) -> Result<Call, BadLine<'a>>
        ensures { told result (left self.new) ≡ delete (left self.old) }
    {
        let at = self.spot()?;
        let with = self.with()?;
        Ok(Call {
            at,
            action: Action::Delete { with },
        })
    }

    fn deliver(&mut self) -> Result<Call, BadLine<'a>>
        ensures { told result (left self.new) ≡ deliver (left self.old) }
    {
        let at = self.spot()?;
        let call = self.number(Part::CallNumber)?;
        Ok(Call {
            at,
            action: Action::Deliver { call },
        })
    }

    // A call that needs no more than a seat and a key.
    fn plain(&mut self, action: Action) -> Result<Call, BadLine<'a>>
        ensures { told result (left self.new) ≡ plain action (left self.old) }
    {
        let at = self.spot()?;
        Ok(Call { at, action })
    }
}

// The call of a line, or none where it is blank.
pub fn parse(line: &str) -> Result<Option<Call>, BadLine<'_>>
    ensures { said result ≡ call_of (words line.entry.now) }
{
    let mut words = Words {
        rest: line.split_ascii_whitespace(),
    };
    let call = match words.next() {
        None => return Ok(None),
        Some("put") => words.put()?,
        Some("delete") => words.delete()?,
        Some("get") => words.plain(Action::Get)?,
        Some("send") => words.plain(Action::Send)?,
        Some("save") => words.plain(Action::Save)?,
        Some("deliver") => words.deliver()?,
        Some(word) => return Err(BadLine::NoSuchCall(word)),
    };
    words.end()?;
    Ok(Some(call))
}
