// The two calls under their names for C, as pointers and lengths: the static library of the crate `host`.
#![tactic(auto)]

ghost use Rattle.std.specs.Prelude.{◌≡◌};
ghost use Rattle.dvvset.specs.Clock.{after, answer};
ghost use Rattle.formats.specs.Reading.{key_of, reading};
ghost use Rattle.values.specs.Layouts.{setting_of};
ghost use Rattle.host.specs.Merging.{checked_code, merged_code, merging_frames};

// 0 for the frame of a setting state, or the refusal's code.
#[unsafe(no_mangle)]
pub extern "C" fn zabrusko_check_frame(frame: &[u8]) -> u32
    ensures { result ≡ checked_code (key_of (reading 16 setting_of frame.now)) }
{
    host::zabrusko_check_frame(frame)
}

// The number of bytes written to the front of `out`, those beyond being untouched; or the refusal's code, with nothing written.
#[unsafe(no_mangle)]
pub extern "C" fn zabrusko_merge_frames(first: &[u8], second: &[u8], out: &mut [u8]) -> u32
    ensures answer { result ≡ merged_code (answer (merging_frames first.now second.now out.old)) }
    ensures out { out.new ≡ after out.old (merging_frames first.now second.now out.old) }
{
    host::zabrusko_merge_frames(first, second, out)
}
