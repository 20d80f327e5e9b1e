ghost use Rattle.std.specs.Prelude.{◌≡◌, ◌≤◌, None, length, IfOk, OnOk, OnErr};
ghost use Rattle.mm_base.specs.Outside.{Rose};
ghost use Rattle.edit_source.specs.Host.{host_source_faults};

use crate::Source;
use mm_base::Failed;
use std::io::Read;

/// A stream of the system. It tells nothing of what it has.
#[derive(Drop)]
pub struct HostSource<R> {
    stream: R,
    faults: u64,
}

impl<R> HostSource<R> {
    /// A source over this stream. It takes no memory.
    pub fn new(stream: R) -> HostSource<R>
        ensures { host_source_faults result ≡ 0 }
    {
        HostSource { stream, faults: 0 }
    }
}

impl<R: Read> Source for HostSource<R> {
    ghost left = { λ _. None };

    ghost faults = { λ source. host_source_faults source };

    fn read(&mut self, piece: &mut [u8]) -> Result<u64, Failed>
        ensures same_length { length piece.new ≡ length piece.old }
        ensures within { IfOk result (λ count. count ≤ length piece.old) }
        ensures failed { OnErr result (Rose (host_source_faults self.old) (host_source_faults self.new)) }
        ensures faults { host_source_faults self.old ≤ host_source_faults self.new }
        ensures no_fault { OnOk result (host_source_faults self.new ≡ host_source_faults self.old) }
    {
        match self.stream.read(piece) {
            Ok(count) => Ok(count as u64),
            Err(_) => {
                self.faults = self.faults.saturating_add(1);
                Err(Failed)
            }
        }
    }
}
