// One action carried out by the published meaning: whether pairs hold of the values of a state, and the values behind an action's effects.
#![tactic(auto)]

ghost use Rattle.std.specs.Prelude.{◌≡◌, cond, ◌++◌, ◌+◌, ◌≤◌, eqb, length, get_or, drop};
ghost use Rattle.loops.specs.Count.{list};
ghost use Rattle.task.specs.Meaning.{free, met, holds, put};

use task::FREE;

// Whether the pair, if there is one, holds of the value.
fn pair_holds(pair: u8, value: u8) -> bool
    ensures { result ≡ met pair value }
{
    pair == FREE || pair == value
}

// Whether each pair of a row of conditions or of the goal holds of the value at its place.
pub fn holds(pairs: &[u8], values: &[u8]) -> bool
    requires { length pairs.now ≤ length values.now }
    ensures { result ≡ holds (length pairs.now) (λ v. get_or pairs.now v 0) (λ v. get_or values.now v 0) }
{
    pairs
        .iter()
        .zip(values)
        .all(|(pair, value)| pair_holds(*pair, *value))
}

// The value of the pair, or the one there was if there is no pair.
fn changed(pair: u8, value: u8) -> u8
    ensures { result ≡ cond (eqb pair free) value pair }
{
    if pair == FREE { value } else { pair }
}

// The values at the front, changed where the row of effects names a variable.
pub fn put(pairs: &[u8], values: &mut [u8])
    requires { length pairs.now ≤ length values.old }
    ensures { values.new ≡ list (length pairs.now) (put (λ v. get_or pairs.now v 0) (λ v. get_or values.old v 0))
        ++ drop (length pairs.now) values.old }
{
    for (v, pair) in pairs.iter().enumerate() {
        values[v] = changed(*pair, values[v]);
    }
}
