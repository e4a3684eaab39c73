// Labels: up to twelve printable characters, with zero bytes after them.
ghost use Rattle.std.specs.Prelude.{◌≡◌};
ghost use Rattle.std.specs.Char.{is_ascii_graphic};
ghost use Rattle.std.specs.List.{list_all};
ghost use Rattle.scenario.specs.Labels.{label_of};

use std::fmt;
use values::Setting;

// A setting that is shown by its measure and its label.
#[derive(Clone, Copy)]
pub struct Labelled(pub Setting);

fn is_printable(word: &[u8]) -> bool
    ensures { result ≡ list_all is_ascii_graphic word.now }
{
    word.iter().all(|b| b.is_ascii_graphic())
}

// The bytes with zeros after them; none where they are no label.
pub fn padded(word: &[u8]) -> Option<[u8; 12]>
    ensures { result ≡ label_of word.now }
{
    let n = word.len();
    if n < 1 || n > 12 || !is_printable(word) {
        return None;
    }
    let mut label = [0; 12];
    label[..n].copy_from_slice(word);
    Some(label)
}

impl fmt::Display for Labelled {
    fn fmt<W: fmt::Write>(&self, f: &mut fmt::Formatter<W>) -> fmt::Result {
        write!(f, "{} ", self.0.measure)?;
        for b in &self.0.label {
            if *b != 0 {
                f.write_char(char::from(*b))?;
            }
        }
        Ok(())
    }
}
