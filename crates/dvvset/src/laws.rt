// The laws of the clock's definitions, each as a function's contract, for values of any type.
ghost use Rattle.dvvset.specs.Laws.{MergeLaws, ClockLaws};

// Merge of a column: what it keeps, and that the order, the grouping and repetition of merges do not matter.
pub fn merge_laws<V, W>()
    ensures { MergeLaws V W }
{}

// Discard and put of a column by the writes that they keep; what is legal stays legal.
pub fn clock_laws<V>()
    ensures { ClockLaws V }
{}
