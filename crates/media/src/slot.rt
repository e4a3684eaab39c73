// A place for a frame, and one for each key.
ghost use Rattle.std.specs.Prelude.{◌≡◌, ◌≤◌, length};

// A frame: the first `size` bytes. A buffer with its length, since the core has no heap.
#[derive(Clone, Copy)]
pub(crate) struct Slot {
    pub(crate) size: usize,
    pub(crate) bytes: [u8; 1756],
    ghost within: { size ≤ 1756 },
    // the arrays' types say these lengths too; a lemma on slots, apart from any function, has them from here
    ghost wide: { length bytes ≡ 1756 },
}

// A slot for each key, none where nothing was saved.
#[derive(Drop)]
pub struct Slots {
    pub(crate) slots: [Option<Slot>; 16],
    ghost sixteen: { length slots ≡ 16 },
}
