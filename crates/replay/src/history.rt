// What the calls of a scenario gave: contexts by gets, frames by sends.
ghost use Rattle.std.specs.Prelude.{◌≡◌, ◌<◌, true, [], ◌∷◌, ◌++◌, is_ok, if◌then◌else◌};
ghost use Rattle.std.specs.List.{All};
ghost use Rattle.std.specs.Option.{option_map};
ghost use Rattle.replay.specs.Gifts.{Rises, given};

use std::alloc::{AllocFailed, Global};

// What a call gave for a key.
#[derive(Clone, Copy, Drop)]
pub struct Gift<T> {
    pub call: u64,
    pub key: u64,
    pub what: T,
}

// In the order in which they were added, and whether the calls' numbers rise along the list, as those of a session do.
#[derive(Drop)]
pub struct History<T> {
    pub(crate) gifts: Vec<Gift<T>>,
    rising: bool,
    ghost sorted: { rising ≡ true → Rises gifts.items },
}

impl<T: Drop> History<T> {
    pub fn new(alloc: Global) -> History<T>
        ensures { result.gifts.items ≡ [] }
    {
        History {
            gifts: Vec::new(alloc),
            rising: true,
        }
    }

    pub fn add(&mut self, gift: Gift<T>) -> Result<(), AllocFailed<Gift<T>>>
        ensures { self.new.gifts.items ≡ (if is_ok result then self.old.gifts.items ++ gift ∷ [] else self.old.gifts.items) }
    {
        let rising = self.rises_to(gift.call);
        self.gifts.push(gift)?;
        self.rising = rising;
        Ok(())
    }

    // Whether the calls rise along the list, and on to this one.
    fn rises_to(&self, call: u64) -> bool
        ensures { result ≡ true → Rises self.now.gifts.items × All (λ g. g.call < call) self.now.gifts.items }
    {
        match self.gifts.last() {
            None => true,
            Some(last) => self.rising && last.call < call,
        }
    }

    // What a call gave for a key, if it gave something for that key.
    pub fn find(&self, call: u64, key: u64) -> Option<&T>
        ensures { option_map (λ x. x.now) result ≡ given self.now.gifts.items call key }
    {
        if self.rising {
            self.search(call, key)
        } else {
            self.walk(call, key)
        }
    }

    // Where the calls rise, at most one gift is of the call.
    fn search(&self, call: u64, key: u64) -> Option<&T>
        requires { self.now.rising ≡ true }
        ensures { option_map (λ x. x.now) result ≡ given self.now.gifts.items call key }
    {
        match self.gifts.binary_search_by_key(&call, |gift| gift.call) {
            Ok(at) => {
                let gift = &self.gifts[at];
                (gift.key == key).then_some(&gift.what)
            }
            Err(_) => None,
        }
    }

    fn walk(&self, call: u64, key: u64) -> Option<&T>
        ensures { option_map (λ x. x.now) result ≡ given self.now.gifts.items call key }
    {
        for gift in &self.gifts {
            if gift.call == call && gift.key == key {
                return Some(&gift.what);
            }
        }
        None
    }
}
