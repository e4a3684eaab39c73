// To C a refusal is told as a number: 65,536 times its own plus its offset.
ghost use Rattle.std.specs.Prelude.{◌≡◌, ◌≤◌};
ghost use Rattle.dvvset.specs.Clock.{after, answer};
ghost use Rattle.formats.specs.Reading.{key_of, reading};
ghost use Rattle.refusals.specs.Refusals.{offset};
ghost use Rattle.values.specs.Layouts.{setting_of};
ghost use Rattle.host.specs.Merging.{checked_code, code, merged_code, merging_frames};

use crate::merging::merge_frames;
use frames::check;
use refusals::Refusal;
use values::Setting;

// A refusal's code.
fn code_of(refusal: Refusal) -> u32
    requires { offset refusal ≤ 65535 }
    ensures { result ≡ code refusal }
{
    65_536 * u32::from(refusal.number()) + refusal.offset() as u32
}

// 0 for the frame of a setting state, or the refusal's code.
pub fn zabrusko_check_frame(frame: &[u8]) -> u32
    ensures { result ≡ checked_code (key_of (reading 16 setting_of frame.now)) }
{
    match check::<Setting>(frame) {
        Ok(_) => 0,
        Err(e) => code_of(e),
    }
}

// The number of bytes written to the front of `out`, those beyond being untouched; or the refusal's code, with nothing written.
pub fn zabrusko_merge_frames(first: &[u8], second: &[u8], out: &mut [u8]) -> u32
    ensures answer { result ≡ merged_code (answer (merging_frames first.now second.now out.old)) }
    ensures out { out.new ≡ after out.old (merging_frames first.now second.now out.old) }
{
    match merge_frames(first, second, out) {
        Ok(n) => n as u32,
        Err(e) => code_of(e),
    }
}
