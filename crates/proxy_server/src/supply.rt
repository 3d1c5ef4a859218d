//! Random words for all connections.

ghost use Rattle.std.specs.Prelude.{None};

use proxy_links::Words;
use std::sync::{Mutex, Wait};
use tcp_links::RandomWords;

/// One supply that threads share. It tells no list.
#[derive(Drop)]
pub(crate) struct Supply {
    words: Mutex<RandomWords>,
}

impl Supply {
    pub(crate) fn new(words: RandomWords) -> Supply {
        Supply {
            words: Mutex::new(words),
        }
    }
}

/// A connection's way to the supply.
#[derive(Drop)]
pub(crate) struct SharedWords<'a, R> {
    pub(crate) rt: R,
    pub(crate) supply: &'a Supply,
}

impl<'a, R: Wait> Words for SharedWords<'a, R> {
    ghost given = { λ _. None };

    fn next(&mut self) -> u64 {
        let mut words = self.supply.words.lock(&self.rt);
        words.next()
    }
}
