// What frames, contexts and entries mean, byte by byte, and the theorems that each has one form in bytes and one reading.
#![tactic(auto)]

ghost use Rattle.formats.specs.Entries.{OneLog};
ghost use Rattle.formats.specs.OneFrame.{OneContext, OneFrame};

use values::Value;

// For states of every value type.
pub fn one_frame<V: Value>()
    ensures { OneFrame V.Value.width V.Value.bytes_of V.Value.value_of V.Value.valid }
{}

// For contexts.
pub fn one_context()
    ensures { OneContext }
{}

// For entries, one after the other.
pub fn one_log()
    ensures { OneLog }
{}
