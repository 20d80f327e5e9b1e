ghost use Rattle.std.specs.Prelude.{◌≡◌, ◌≢◌, ℕ, ◌<◌, ◌^◌, ◌++◌, codes, decimal, IfOk, IfSome, MatchOption};
ghost use Rattle.written_model.specs.Filled.{derived_name};
ghost use Rattle.hyp_derive.specs.Naming.{numbered_name, AreNumbersOf, IsLeastName};

use itoa::Buffer;
use mm_base::{List, Memory, Name};
use std::alloc::Global;
use work_vars::{least_unused, read_number};

/// The number of a name that is `d` and a number.
fn derived_number(name: &[u8]) -> Option<u64>
    ensures below { IfSome result (λ n. n < 2 ^ 64) }
    ensures named { MatchOption result ((n : ℕ) → n < 2 ^ 64 → name.now ≢ numbered_name n) (λ n. name.now ≡ numbered_name n) }
{
    read_number(name.strip_prefix(b"d".as_slice())?)
}

/// The numbers of those names that are `d` and a number.
fn derived_numbers(alloc: Global, used: &[Name]) -> Result<Vec<u64>, Memory>
    ensures { IfOk result (λ numbers. AreNumbersOf used.now numbers.items) }
{
    let mut numbers = Vec::new(alloc);
    for name in used {
        if let Some(number) = derived_number(name.as_slice()) {
            numbers.push(number)?;
        }
    }
    Ok(numbers)
}

/// The name that is `d` and a number.
pub fn derived(alloc: Global, number: u64) -> Result<Name, Memory>
    ensures { IfOk result (λ name. name ≡ numbered_name number) }
{
    let mut buffer = Buffer::new();
    let mut name = Vec::from_slice(alloc, b"d")?;
    name.extend_from_slice(buffer.format(number).as_bytes())?;
    Ok(List::from_vec(name))
}

/// The name of a new step: `d` and the least number from 1 that makes a name not used. It reads each name once, and
/// takes memory for a number and a byte for each.
pub fn step_name(alloc: Global, used: &List<Name>) -> Result<Name, Memory>
    ensures name { IfOk result (λ name. name ≡ derived_name used.now) }
    ensures least { IfOk result (λ name. IsLeastName used.now name) }
{
    let numbers = derived_numbers(alloc, used.as_slice())?;
    let number = least_unused(alloc, numbers.as_slice())?;
    derived(alloc, number)
}
