// One entry more.
ghost use Rattle.std.specs.Prelude.{◌≡◌, ◌+◌, ◌≤◌, ◌++◌, length, drop};
ghost use Rattle.formats.specs.Entries.{entry_field};
ghost use Rattle.journal.specs.Journals.{closed};

use cursor::tags;

// Writes an entry to the front of `out`: tag (1), length (2), key (1), frame.
fn write_entry(key: u8, frame: &[u8], out: &mut [u8])
    requires room { length frame.now + 4 ≤ length out.old }
    requires few { length frame.now ≤ 1756 }
    ensures { out.new ≡ entry_field (record { key = key; frame = frame.now }) ++ drop (length frame.now + 4) out.old }
{
    let [high, low] = (frame.len() as u16 + 1).to_be_bytes();
    out[..4].copy_from_slice(&[tags::ENTRY, high, low, key]);
    out[4..4 + frame.len()].copy_from_slice(frame);
}

// Writes the tag that ends the entries, where a byte is left.
fn close(out: &mut [u8])
    ensures { out.new ≡ closed out.old }
{
    if !out.is_empty() {
        out[0] = 0;
    }
}

// Writes the last entry, and ends the entries behind it. That the frame is short enough, the medium has tested.
pub(crate) fn append(key: u8, frame: &[u8], out: &mut [u8])
    requires room { length frame.now + 4 ≤ length out.old }
    requires few { length frame.now ≤ 1756 }
    ensures { out.new ≡ entry_field (record { key = key; frame = frame.now }) ++ closed (drop (length frame.now + 4) out.old) }
{
    write_entry(key, frame, out);
    close(&mut out[frame.len() + 4..]);
}
