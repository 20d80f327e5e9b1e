ghost use Rattle.std.specs.Prelude.{◌≡◌};

use crate::List;

/// The calls of a fake: how many there were, and the numbers of those that fail. They are numbered from 1.
#[derive(Drop)]
pub struct Calls {
    pub fails: List<u64>,
    pub count: u64,
}

impl Calls {
    ghost use Rattle.mm_base.specs.Calls.{fails_next, after_one};

    /// Counts one more call, and answers whether it is one of those that fail.
    pub fn next_fails(&mut self) -> bool
        ensures fails { result ≡ fails_next self.old }
        ensures counted { self.new ≡ after_one self.old }
    {
        self.count = self.count.saturating_add(1);
        self.fails.as_slice().contains(&self.count)
    }
}
