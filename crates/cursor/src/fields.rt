// The fields of frames, contexts and lists of entries: what each says, its bytes, and the offset of its tag.
// Each is read from the front of some bytes, and is told the offset at which they begin: a struct for the two would be a second cursor.
ghost use Rattle.std.specs.Prelude.{◌≡◌, ◌+◌, ◌*◌, ◌^◌, ◌<◌, ◌≤◌, length, option_map};
ghost use Rattle.formats.specs.Reading.{in_range};

use crate::framing::framed;
use crate::tags;
use refusals::Refusal;
use values::Value;

// key (1)
#[derive(Clone, Copy, PartialEq, Eq, Debug)]
pub struct Head<'a> {
    pub key: u8,
    pub bytes: &'a [u8],
    pub at: usize,
    ghost low: { key ≤ 15 },
}

impl<'a> Head<'a> {
    ghost use Rattle.cursor.specs.Seen.{head_seen, head_shown, head_span, Reads};

    pub(crate) fn read(rest: &'a [u8], due: u8, at: usize) -> Result<Self, Refusal>
        ensures { Reads head_shown head_span (head_seen due at rest.now) (length rest.now) result }
    {
        let bytes = framed(rest, due, at)?;
        let [key] = bytes else {
            return Err(Refusal::WrongLength(at));
        };
        let key = *key;
        if key > 15 {
            return Err(Refusal::OutOfRange(at));
        }
        Ok(Head { key, bytes, at })
    }
}

// column (1), count (1), top (4), values. The bounds are those of a column of the clock, which stands above.
#[derive(Clone, Copy, PartialEq, Eq, Debug)]
pub struct ColumnField<'a> {
    pub column: u8,
    pub count: u8,
    pub top: u32,
    pub values: &'a [u8],
    pub at: usize,
    ghost low: { column ≤ 23 },
    ghost few: { count ≤ 4 },
    ghost within: { count ≤ top },
    ghost some: { 1 ≤ top },
    ghost top_low: { top ≤ 999999 },
}

// Whether a column's numbers are within their ranges.
fn is_column(column: u8, count: u8, top: u32) -> bool
    ensures { result ≡ in_range column count top }
{
    column <= 23 && count <= 4 && u32::from(count) <= top && top >= 1 && top <= 999_999
}

impl<'a> ColumnField<'a> {
    ghost use Rattle.cursor.specs.Seen.{column_seen, column_shown, column_span, Reads};

    pub(crate) fn read<V: Value>(rest: &'a [u8], at: usize) -> Result<Self, Refusal>
        ensures { Reads column_shown column_span (column_seen V.Value.width at rest.now) (length rest.now) result }
    {
        let body = framed(rest, tags::COLUMN, at)?;
        let [column, count, t0, t1, t2, t3, values @ ..] = body else {
            return Err(Refusal::WrongLength(at));
        };
        let column = *column;
        let count = *count;
        let top = u32::from_be_bytes([*t0, *t1, *t2, *t3]);
        if !is_column(column, count, top) {
            return Err(Refusal::OutOfRange(at));
        }
        if values.len() != V::width() * usize::from(count) {
            return Err(Refusal::WrongLength(at));
        }
        Ok(ColumnField {
            column,
            count,
            top,
            values,
            at,
        })
    }
}

// column (1), top (4)
#[derive(Clone, Copy, PartialEq, Eq, Debug)]
pub struct TopField<'a> {
    pub column: u8,
    pub top: u32,
    pub bytes: &'a [u8],
    pub at: usize,
    ghost low: { column ≤ 23 },
    ghost some: { 1 ≤ top },
    ghost top_low: { top ≤ 999999 },
}

impl<'a> TopField<'a> {
    ghost use Rattle.cursor.specs.Seen.{Reads, top_seen, top_shown, top_span};

    pub(crate) fn read(rest: &'a [u8], at: usize) -> Result<Self, Refusal>
        ensures { Reads top_shown top_span (top_seen at rest.now) (length rest.now) result }
    {
        let bytes = framed(rest, tags::TOP, at)?;
        let [column, t0, t1, t2, t3] = bytes else {
            return Err(Refusal::WrongLength(at));
        };
        let column = *column;
        let top = u32::from_be_bytes([*t0, *t1, *t2, *t3]);
        if column > 23 || top == 0 || top > 999_999 {
            return Err(Refusal::OutOfRange(at));
        }
        Ok(TopField {
            column,
            top,
            bytes,
            at,
        })
    }
}

// key (1), frame
#[derive(Clone, Copy, PartialEq, Eq, Debug)]
pub struct Entry<'a> {
    pub key: u8,
    pub frame: &'a [u8],
    pub at: usize,
    ghost low: { key ≤ 15 },
}

impl<'a> Entry<'a> {
    ghost use Rattle.cursor.specs.Seen.{entry_seen, entry_shown, entry_span, Reads};

    // None where the entries end.
    pub(crate) fn read(rest: &'a [u8], at: usize) -> Result<Option<Self>, Refusal>
        ensures { Reads (option_map entry_shown) entry_span (entry_seen at rest.now) (length rest.now) result }
    {
        if let [] | [0, ..] = rest {
            return Ok(None);
        }
        let body = framed(rest, tags::ENTRY, at)?;
        if body.len() < 5 || body.len() > 1757 {
            return Err(Refusal::WrongLength(at));
        }
        let key = body[0];
        if key > 15 {
            return Err(Refusal::OutOfRange(at));
        }
        Ok(Some(Entry {
            key,
            frame: &body[1..],
            at,
        }))
    }
}

// A field of any kind, an enum by this project's rule on forms: each case borrows its bytes, and tells where its tag stands.
#[derive(Clone, Copy, PartialEq, Eq, Debug)]
pub enum Field<'a> {
    Head(Head<'a>),
    Column(ColumnField<'a>),
    Top(TopField<'a>),
    Entry(Entry<'a>),
}

impl Field<'_> {
    ghost use Rattle.cursor.specs.Seen.{field_span};

    // How many bytes the field takes, with its tag and length.
    pub(crate) fn span(&self) -> usize
        requires { field_span self.now < 2 ^ 64 }
        ensures { result ≡ field_span self.now }
    {
        match self {
            Field::Head(head) => 3 + head.bytes.len(),
            Field::Column(column) => 9 + column.values.len(),
            Field::Top(top) => 3 + top.bytes.len(),
            Field::Entry(entry) => 4 + entry.frame.len(),
        }
    }
}
