// What a reader has seen of a key: the top of each of its 24 columns.
ghost use Rattle.std.specs.Prelude.{◌≡◌, ℕ, ◌<◌, ◌≤◌, ◌&&◌, length, replicate, if◌then◌else◌, Some, None, nat_le, slice_index, slice_set};
ghost use Rattle.std.specs.Option.{option_map};

use crate::indices::ColumnIndex;

// tops (4 each), column 0 first
#[derive(Clone, Copy, PartialEq, Eq, Debug)]
pub struct Context {
    pub tops: [u32; 24],
    // the array's type says so too; a lemma on a context, apart from any function, has it from here
    ghost wide: { length tops ≡ 24 },
    ghost low: { (c : ℕ) → slice_index tops c ≤ 999999 },
}

impl Context {
    // Of one who has seen nothing.
    pub fn none() -> Context
        ensures { result.tops ≡ replicate 24 0 }
    {
        Context { tops: [0; 24] }
    }

    // With another top for one column; none where the column is over 23 or the top over 999,999.
    pub fn with(self, column: u8, top: u32) -> Option<Context>
        ensures { option_map (λ c. c.tops) result ≡ (if nat_le column 23 && nat_le top 999999 then Some (slice_set self.tops column top) else None) }
    {
        if column > 23 || top > 999_999 {
            return None;
        }
        let mut tops = self.tops;
        tops[usize::from(column)] = top;
        Some(Context { tops })
    }

    // The top of a column.
    pub fn top(&self, column: ColumnIndex) -> u32
        ensures value { result ≡ slice_index self.now.tops column.index }
        ensures low { result ≤ 999999 }
    {
        self.tops[usize::from(column.index)]
    }
}
