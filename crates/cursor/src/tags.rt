// The tag that each kind of field begins with.
pub const STATE: u8 = 1;

pub const COLUMN: u8 = 2;

pub const CONTEXT: u8 = 3;

pub const TOP: u8 = 4;

pub const ENTRY: u8 = 0x10;
