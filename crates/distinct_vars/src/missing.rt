ghost use Rattle.std.specs.Prelude.{◌≡◌, not, find};
ghost use Rattle.solve_model.specs.PairSets.{is_pair_in};

use mm_base::{List, Pair};

fn is_among(pairs: &[Pair], pair: Pair) -> bool
    ensures { result ≡ is_pair_in pairs.now pair }
{
    pairs.iter().any(|other| pair == *other)
}

/// The first of the needed pairs that is not given; none where each is. Two pairs are one where they have the same
/// variables in the same order, so both lists have the lesser variable first. It takes no memory, and looks through the
/// given pairs once for each needed one up to the answer.
pub fn lacking(needed: &List<Pair>, given: &List<Pair>) -> Option<Pair>
    ensures { result ≡ find (λ p. not (is_pair_in given.now p)) needed.now }
{
    let given = given.as_slice();
    needed
        .as_slice()
        .iter()
        .copied()
        .find(|pair| !is_among(given, *pair))
}
