ghost use Rattle.std.specs.Prelude.{◌≡◌, ◌≤◌, ◌<◌, length};

use crate::Source;
use mm_base::{Bytes, Failed};

/// A source in memory that tells its bytes. It gives a few at once.
#[derive(Drop)]
pub struct MemSource {
    bytes: Bytes,
    place: u64,
    most: u64,
    faults: u64,
    ghost within: { place ≤ length bytes },
    ghost some: { 0 < most },
}

impl MemSource {
    ghost use Rattle.edit_source.specs.MemSource.{source_left, source_most, source_faults};

    /// One that gives these bytes, and at most `most` of them at once.
    pub fn new(bytes: Bytes, most: u64) -> MemSource
        requires { 0 < most }
        ensures left { source_left result ≡ bytes }
        ensures most { source_most result ≡ most }
        ensures faults { source_faults result ≡ 0 }
    {
        MemSource {
            bytes,
            place: 0,
            most,
            faults: 0,
        }
    }

    /// The bytes that it still has.
    pub fn left(&self) -> &[u8]
        ensures { result.now ≡ source_left self.now }
    {
        &self.bytes.as_slice()[self.place as usize..]
    }
}

impl Source for MemSource {
    ghost use Rattle.std.specs.Prelude.{◌++◌, ◌↔◌, Some, [], take, min, IfOk, OnErr};
    ghost use Rattle.mm_base.specs.Outside.{Rose};
    ghost use Rattle.edit_source.specs.MemSource.{source_left, source_most, source_faults};

    ghost left = { λ source. Some (source_left source) };

    ghost faults = { source_faults };

    fn read(&mut self, piece: &mut [u8]) -> Result<u64, Failed>
        ensures same_length { length piece.new ≡ length piece.old }
        ensures within { IfOk result (λ count. count ≤ length piece.old) }
        ensures taken { IfOk result (λ count. source_left self.old ≡ take count piece.new ++ source_left self.new) }
        ensures ended { IfOk result (λ count. 0 < length piece.old → (count ≡ 0) ↔ (source_left self.old ≡ [])) }
        ensures kept { OnErr result (Some (source_left self.new) ≡ Some (source_left self.old)) }
        ensures failed { OnErr result (Rose (source_faults self.old) (source_faults self.new)) }
        ensures faults { source_faults self.old ≤ source_faults self.new }
        ensures count { IfOk result (λ count. count ≡ min (min (source_most self.old) (length piece.old)) (length (source_left self.old))) }
    {
        let bytes = self.bytes.as_slice();
        let place = self.place as usize;
        let count = (self.most as usize)
            .min(piece.len())
            .min(bytes.len() - place);
        let end = place + count;
        piece[..count].copy_from_slice(&bytes[place..end]);
        self.place = end as u64;
        Ok(count as u64)
    }
}
