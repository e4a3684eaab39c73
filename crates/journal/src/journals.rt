// A journal means what its bytes say, whatever they are.
use refusals::Refusal;

#[derive(Drop)]
pub struct Journal<'a> {
    pub(crate) bytes: &'a mut [u8],
}

// A buffer that is no journal, handed back.
#[derive(Drop)]
pub struct Unopened<'a> {
    pub why: Refusal,
    pub bytes: &'a mut [u8],
}
