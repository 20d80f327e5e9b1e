ghost use Rattle.std.specs.Prelude.{◌≡◌, ℕ, ◌+◌, ◌-◌, ◌<◌, ◌≤◌, ◌^◌, true, false, length, slice_index_or, MatchOption, IfOk};
ghost use Rattle.work_vars.specs.Free.{is_used, IsLeastFree};

use mm_base::{List, Memory};
use std::alloc::Global;

/// How many numbers are looked at in one pass over a list.
const WINDOW: usize = 65_536;

/// Marks the numbers of a list that stand from `low` on, by their distance from it, and nothing else.
fn mark(used: &[u32], low: usize, marks: &mut [bool])
    ensures { (k : ℕ) → k < length marks.old → slice_index_or marks.new k false ≡ is_used used.now (low + k) }
{
    marks.fill(false);
    for number in used {
        let number = *number as usize;
        if low <= number && number - low < marks.len() {
            marks[number - low] = true;
        }
    }
}

/// The same for long numbers.
fn mark_long(used: &[u64], low: u64, marks: &mut [bool])
    ensures { (k : ℕ) → k < length marks.old → slice_index_or marks.new k false ≡ is_used used.now (low + k) }
{
    marks.fill(false);
    for number in used {
        let number = *number;
        if low <= number && number - low < marks.len() as u64 {
            marks[(number - low) as usize] = true;
        }
    }
}

fn first_unmarked(marks: &[bool]) -> Option<usize>
    ensures { MatchOption result ((k : ℕ) → k < length marks.now → slice_index_or marks.now k false ≡ true)
        (λ i. (i < length marks.now) × (slice_index_or marks.now i false ≡ false) × ((k : ℕ) → k < i → slice_index_or marks.now k false ≡ true)) }
{
    for (i, marked) in marks.iter().enumerate() {
        if !*marked {
            return Some(i);
        }
    }
    None
}

/// The first number that is not used in the window that begins at `low` and is as wide as the marks.
fn first_in_window(used: &[u32], low: usize, marks: &mut [bool]) -> Option<usize>
    requires { low < 2 ^ 33 }
    ensures { MatchOption result ((n : ℕ) → low ≤ n → n < low + length marks.old → is_used used.now n ≡ true)
        (λ m. (low ≤ m) × (is_used used.now m ≡ false) × ((n : ℕ) → low ≤ n → n < m → is_used used.now n ≡ true)) }
{
    mark(used, low, marks);
    match first_unmarked(marks) {
        Some(place) => Some(low + place),
        None => None,
    }
}

/// The least number from 1 that is not in a list. It takes no memory. The list is read once for each 65,536 numbers up
/// to the answer; a list that is longer is better read by `least_unused`.
pub fn least_free(used: &List<u32>) -> u32
    requires { length used.now + 1 < 2 ^ 32 }
    ensures { IsLeastFree used.now result }
{
    let used = used.as_slice();
    let mut marks = [false; WINDOW];
    let mut low = 1;
    loop {
        if let Some(number) = first_in_window(used, low, &mut marks) {
            return number as u32;
        }
        low += WINDOW;
    }
}

/// The least number from 1 that is not used, where so many marks cover it.
fn first_covered(used: &[u64], marks: &mut [bool]) -> Option<u64>
    ensures { MatchOption result ((n : ℕ) → 1 ≤ n → n < 1 + length marks.old → is_used used.now n ≡ true)
        (λ n. IsLeastFree used.now n × (n ≤ length marks.old)) }
{
    mark_long(used, 1, marks);
    match first_unmarked(marks) {
        Some(place) => Some(1 + place as u64),
        None => None,
    }
}

/// The least number from 1 that is not in a list, in one pass. It takes a byte for each number of the list.
pub fn least_unused(alloc: Global, used: &[u64]) -> Result<u64, Memory>
    ensures least { IfOk result (λ n. IsLeastFree used.now n) }
    ensures bounded { IfOk result (λ n. n ≤ length used.now + 1) }
{
    let mut marks = vec![in alloc; false; used.len() + 1]?;
    match first_covered(used, marks.as_mut_slice()) {
        Some(number) => Ok(number),
        None => unreachable!(),
    }
}
