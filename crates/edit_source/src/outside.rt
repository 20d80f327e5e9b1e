ghost use Rattle.std.specs.Prelude.{◌≡◌, ◌≤◌, ◌<◌, ◌↔◌, List, ℕ, Option, [], length, take, IfOk, OnErr, IfSome};
ghost use Rattle.mm_base.specs.Outside.{Rose};
ghost use Rattle.edit_source.specs.Sources.{Takes};

use mm_base::Failed;

/// A giver of bytes. Its count of faults never falls, and at the last value of a `u64` counts as risen.
pub trait Source {
    /// The bytes that it still has, where it tells them.
    ghost left: { Self → Option (List ℕ) };

    /// How often it failed.
    ghost faults: { Self → ℕ };

    /// Takes the next bytes, as many as it gives at once, into the front of the piece; none exactly where it has no more, if
    /// the piece is not empty. After `Failed` it has what it had.
    fn read(&mut self, piece: &mut [u8]) -> Result<u64, Failed>
        ensures same_length { length piece.new ≡ length piece.old }
        ensures within { IfOk result (λ count. count ≤ length piece.old) }
        ensures taken { IfOk result (λ count. Takes (left self.old) (left self.new) (take count piece.new)) }
        ensures ended { IfOk result (λ count. 0 < length piece.old → IfSome (left self.old) (λ bytes. (count ≡ 0) ↔ (bytes ≡ []))) }
        ensures kept { OnErr result (left self.new ≡ left self.old) }
        ensures failed { OnErr result (Rose (faults self.old) (faults self.new)) }
        ensures faults { faults self.old ≤ faults self.new };
}
