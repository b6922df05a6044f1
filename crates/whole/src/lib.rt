// What is tested over the whole of a task, once its fields are read: refusals 9, 10 and 11, in this order.
#![tactic(auto)]

ghost use Rattle.std.specs.Prelude.{◌≡◌, not, ◌&&◌, ◌||◌, ◌*◌, ◌+◌, ◌≤◌, min, eqb, length, get_or};
ghost use Rattle.loops.specs.Count.{any};
ghost use Rattle.task.specs.declared.Task.{Task};
ghost use Rattle.task.specs.Factors.{named, touches, within, leaf_pairs, star_pairs, states_to};
ghost use Rattle.whole.specs.Verdict.{verdict_told};
ghost use Rattle.whole.specs.Whole.{factors_used, states_few, all_star, whole_task};

use fields::Refusal;
use task::{FREE, Task};

// Whether a factor as the table has it is g.
pub fn is_factor(f: u8, g: usize) -> bool
    ensures { result ≡ eqb f g }
{
    f as usize == g
}

// Whether some variable belongs to factor g.
fn factor_used(factors: &[u8], g: usize) -> bool
    ensures { result ≡ any (length factors.now) (λ v. eqb (get_or factors.now v 0) g) }
{
    factors.iter().any(|&f| is_factor(f, g))
}

// Whether the centre and each leaf have a variable.
fn factors_used(factors: &[u8], leaves: usize) -> bool
    requires { leaves ≤ 8 }
    ensures { result ≡ factors_used (length factors.now) leaves (λ v. get_or factors.now v 0) }
{
    (0..leaves + 1).all(|g| factor_used(factors, g))
}

// The product of a count and a size, or 257 where it is above 256.
fn times_capped(p: u32, size: u8) -> u32
    requires { p ≤ 257 }
    ensures { result ≡ min (p * size) 257 }
{
    (p * u32::from(size)).min(257)
}

// How many states a leaf has, or 257 where it has more than 256.
pub fn states_capped(sizes: &[u8], factors: &[u8], leaf: usize) -> u32
    requires { length sizes.now ≡ length factors.now }
    ensures { result ≡ min (states_to (λ v. get_or factors.now v 0) (λ v. get_or sizes.now v 0) leaf (length factors.now)) 257 }
{
    let mut states: u32 = 1;
    for (&f, &size) in factors.iter().zip(sizes.iter()) {
        if is_factor(f, leaf) {
            states = times_capped(states, size);
        }
    }
    states
}

// Whether each leaf has at most 256 states and all leaves together at most 1,024.
fn states_few(sizes: &[u8], factors: &[u8], leaves: usize) -> bool
    requires { (length sizes.now ≡ length factors.now) × (leaves ≤ 8) }
    ensures { result ≡ states_few (length factors.now) leaves (λ v. get_or sizes.now v 0) (λ v. get_or factors.now v 0) }
{
    let mut together: u32 = 0;
    for i in 0..leaves {
        let states = states_capped(sizes, factors, i + 1);
        if states > 256 {
            return false;
        }
        together += states;
    }
    together <= 1024
}

// Whether an entry x names no variable, or one of factor g or h: the variable's factor is f.
fn entry_within(x: u8, f: u8, g: usize, h: usize) -> bool
    ensures { result ≡ (not (named x) || (eqb f g || eqb f h)) }
{
    x == FREE || is_factor(f, g) || is_factor(f, h)
}

// Whether the pairs name variables of factors g and h alone.
fn names_within(factors: &[u8], pairs: &[u8], g: usize, h: usize) -> bool
    requires { length pairs.now ≡ length factors.now }
    ensures { result ≡ within (length factors.now) (λ v. get_or factors.now v 0) g h (λ v. get_or pairs.now v 0) }
{
    factors
        .iter()
        .zip(pairs.iter())
        .all(|(&f, &x)| entry_within(x, f, g, h))
}

// Whether an entry x names a centre variable: the variable's factor is f.
fn names_centre(x: u8, f: u8) -> bool
    ensures { result ≡ (eqb f 0 && named x) }
{
    f == 0 && x != FREE
}

// Whether the pairs name a centre variable.
pub fn touches_centre(factors: &[u8], pairs: &[u8]) -> bool
    requires { length pairs.now ≡ length factors.now }
    ensures { result ≡ touches (length factors.now) (λ v. get_or factors.now v 0) 0 (λ v. get_or pairs.now v 0) }
{
    factors
        .iter()
        .zip(pairs.iter())
        .any(|(&f, &x)| names_centre(x, f))
}

// Whether the pairs are those of a leaf action: effects on the leaf alone, conditions on it and the centre alone.
pub fn leaf_pairs(factors: &[u8], conditions: &[u8], effects: &[u8], leaf: usize) -> bool
    requires { (length conditions.now ≡ length factors.now) × (length effects.now ≡ length factors.now) }
    ensures { result ≡ leaf_pairs (length factors.now) (λ v. get_or factors.now v 0) (λ v. get_or conditions.now v 0) (λ v. get_or effects.now v 0) leaf }
{
    names_within(factors, effects, leaf, leaf) && names_within(factors, conditions, leaf, 0)
}

// Whether the pairs are those of a centre action or of a leaf action.
fn is_star(factors: &[u8], conditions: &[u8], effects: &[u8], leaves: usize) -> bool
    requires { (length conditions.now ≡ length factors.now) × (length effects.now ≡ length factors.now) × (leaves ≤ 8) }
    ensures { result ≡ star_pairs (length factors.now) (λ v. get_or factors.now v 0) leaves (λ v. get_or conditions.now v 0) (λ v. get_or effects.now v 0) }
{
    touches_centre(factors, effects)
        || (0..leaves).any(|i| leaf_pairs(factors, conditions, effects, i + 1))
}

// Whether each action is a centre action or a leaf action.
fn all_star(
    factors: &[u8],
    conditions: &[u8],
    effects: &[u8],
    leaves: usize,
    actions: usize,
) -> bool
    requires n_bound { (length factors.now ≤ 32) × (leaves ≤ 8) × (actions ≤ 255) }
    requires in_bounds { (8192 ≤ length conditions.now) × (8192 ≤ length effects.now) }
    ensures { result ≡ all_star (length factors.now) leaves actions (λ v. get_or factors.now v 0) (λ a v. get_or conditions.now (a * 32 + v) 0) (λ a v. get_or effects.now (a * 32 + v) 0) }
{
    let n = factors.len();
    (0..actions).all(|a| {
        let row = a * 32;
        is_star(
            factors,
            &conditions[row..row + n],
            &effects[row..row + n],
            leaves,
        )
    })
}

// The verdict on a task: the refusal of the first test that fails.
pub fn whole(task: &Task) -> Result<(), Refusal>
    requires { (task.now.variables ≤ 32) × (task.now.leaves ≤ 8) }
    ensures { verdict_told result ≡ whole_task task.now }
{
    let n = usize::from(task.variables);
    let leaves = usize::from(task.leaves);
    let actions = usize::from(task.actions);
    let factors = &task.factors[..n];
    if !factors_used(factors, leaves) {
        return Err(Refusal::FactorEmpty);
    }
    if !states_few(&task.sizes[..n], factors, leaves) {
        return Err(Refusal::TooManyStates);
    }
    if !all_star(factors, &task.conditions, &task.effects, leaves, actions) {
        return Err(Refusal::NotStar);
    }
    Ok(())
}
