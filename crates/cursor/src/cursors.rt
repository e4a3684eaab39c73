// Where a reader is in lent bytes, and its steps, field by field.
ghost use Rattle.std.specs.Prelude.{◌≡◌, ◌+◌, ◌≤◌, ◌==◌, length, drop, option_map};

use crate::fields::{ColumnField, Entry, Field, Head, TopField};
use crate::tags;
use refusals::Refusal;
use values::Value;

#[derive(Drop)]
pub struct Cursor<'a> {
    pub bytes: &'a [u8],
    pub at: usize,
    ghost within: { at ≤ length bytes.now },
}

impl<'a> Cursor<'a> {
    ghost use Rattle.cursor.specs.Seen.{Steps, column_seen, column_shown, column_span, entry_seen, entry_shown, entry_span, field_span, head_seen, head_shown, head_span, top_seen, top_shown, top_span};

    // At the front of the bytes.
    pub fn new(bytes: &'a [u8]) -> Cursor<'a>
        ensures bytes { result.bytes.now ≡ bytes.now }
        ensures at { result.at ≡ 0 }
    {
        Cursor { bytes, at: 0 }
    }

    // Whether no byte is left.
    pub fn ended(&self) -> bool
        ensures { result ≡ (self.now.at == length self.now.bytes.now) }
    {
        self.at == self.bytes.len()
    }

    // What is left of the bytes.
    fn rest(&self) -> &'a [u8]
        ensures { result.now ≡ drop self.now.at self.now.bytes.now }
    {
        &self.bytes[self.at..]
    }

    // Moves behind the field that stands at the front of the rest. The five steps below are alike but for the type of what they read. Tried: one
    // step by a trait of fields. It does not prove where a field's type names V, as a column's would have to.
    fn pass(&mut self, field: Field<'a>)
        requires { self.old.at + field_span field ≤ length self.old.bytes.now }
        ensures moved { self.new.at ≡ self.old.at + field_span field.entry }
        ensures same { self.new.bytes.now ≡ self.old.bytes.now }
    {
        self.at += field.span();
    }

    // The next field, which is to be the head of a state frame.
    pub fn state_head(&mut self) -> Result<Head<'a>, Refusal>
        ensures { Steps head_shown head_span (head_seen 1) self.old self.new result }
    {
        let head = Head::read(self.rest(), tags::STATE, self.at)?;
        self.pass(Field::Head(head));
        Ok(head)
    }

    // The next field, which is to be the head of a context.
    pub fn context_head(&mut self) -> Result<Head<'a>, Refusal>
        ensures { Steps head_shown head_span (head_seen 3) self.old self.new result }
    {
        let head = Head::read(self.rest(), tags::CONTEXT, self.at)?;
        self.pass(Field::Head(head));
        Ok(head)
    }

    // The next field, which is to be a column of such values.
    pub fn column<V: Value>(&mut self) -> Result<ColumnField<'a>, Refusal>
        ensures { Steps column_shown column_span (column_seen V.Value.width) self.old self.new result }
    {
        let column = ColumnField::read::<V>(self.rest(), self.at)?;
        self.pass(Field::Column(column));
        Ok(column)
    }

    // The next field, which is to be a top of a context.
    pub fn top(&mut self) -> Result<TopField<'a>, Refusal>
        ensures { Steps top_shown top_span top_seen self.old self.new result }
    {
        let top = TopField::read(self.rest(), self.at)?;
        self.pass(Field::Top(top));
        Ok(top)
    }

    // The next entry, or none at a tag 00 or at the end of the bytes.
    pub fn entry(&mut self) -> Result<Option<Entry<'a>>, Refusal>
        ensures { Steps (option_map entry_shown) entry_span entry_seen self.old self.new result }
    {
        let next = Entry::read(self.rest(), self.at)?;
        if let Some(entry) = next {
            self.pass(Field::Entry(entry));
        }
        Ok(next)
    }
}
