// The entries in a journal's bytes: a walk over them, and what it tells.
ghost use Rattle.std.specs.Prelude.{◌≡◌, ◌≤◌, length, IfOk, None};
ghost use Rattle.values.specs.BigEndian.{Bytes};
ghost use Rattle.formats.specs.Entries.{opening};
ghost use Rattle.media.specs.Media.{behind};
ghost use Rattle.journal.specs.Journals.{frames_in, room_in, seen, walked};

use cursor::Cursor;
use refusals::Refusal;

// Where the entries end, and the frame of a key that came last.
#[derive(Clone, Copy)]
pub(crate) struct Walk<'b> {
    pub(crate) end: usize,
    pub(crate) newest: Option<&'b [u8]>,
}

pub(crate) fn survey<'b>(bytes: &'b [u8], key: u8) -> Result<Walk<'b>, Refusal>
    ensures value { seen result ≡ walked key 0 None (opening bytes.now) }
    ensures within { IfOk result (λ w. w.end ≤ length bytes.now) }
{
    if bytes.len() > 65_536 {
        return Err(Refusal::ShortMemory);
    }
    let mut cursor = Cursor::new(bytes);
    let mut newest = None;
    while let Some(entry) = cursor.entry()? {
        if entry.key == key {
            newest = Some(entry.frame);
        }
    }
    Ok(Walk {
        end: cursor.at,
        newest,
    })
}

// What no entry uses.
pub(crate) fn left_in(bytes: &[u8]) -> usize
    ensures value { result ≡ room_in bytes.now }
    ensures within { result ≤ length bytes.now }
    ensures bytes { Bytes bytes.now }
{
    // of any key: the end alone is wanted
    match survey(bytes, 0) {
        Err(_) => 0,
        Ok(walk) => bytes.len() - walk.end,
    }
}

// The newest frame of a key.
pub(crate) fn newest_in<'b>(bytes: &'b [u8], key: u8) -> Option<&'b [u8]>
    ensures { behind result ≡ frames_in bytes.now key }
{
    match survey(bytes, key) {
        // no frame, which no save can leave and no reader accepts
        Err(_) => Some(&[]),
        Ok(walk) => walk.newest,
    }
}
