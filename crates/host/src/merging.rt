// Two frames of one key, merged into the frame of their merge.
ghost use Rattle.std.specs.Prelude.{◌≡◌, ◌≤◌, IfOk, IfErr};
ghost use Rattle.refusals.specs.Refusals.{offset};
ghost use Rattle.dvvset.specs.Clock.{after, answer};
ghost use Rattle.host.specs.Merging.{merging_frames};

use clock::Row;
use frames::{check, load_frame, merge_frame, write_frame};
use refusals::Refusal;
use values::Setting;

// The first frame is checked, then the second, then that their keys are equal, and then the room in `out`.
pub(crate) fn merge_frames(first: &[u8], second: &[u8], out: &mut [u8]) -> Result<usize, Refusal>
    ensures answer { result ≡ answer (merging_frames first.now second.now out.old) }
    ensures out { out.new ≡ after out.old (merging_frames first.now second.now out.old) }
    ensures most { IfOk result (λ n. n ≤ 1756) }
    ensures near { IfErr result (λ e. offset e ≤ 1756) }
{
    let mut rows = [Row::default(); 24];
    let mut cells = [Setting::default(); 96];
    let key = load_frame(first, &mut rows, &mut cells)?;
    let other = merge_frame(second, &mut rows, &mut cells)?;
    if key != other {
        return Err(Refusal::Mismatch);
    }
    write_frame(key, &rows, &cells, out)
}
