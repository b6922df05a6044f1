// What an action asks of the variables and makes of them.

ghost use Rattle.std.specs.Prelude.{◌≤◌, length};

// Of each of so many variables, in the first entries of the lists: its size, its factor, the condition on it and the effect on it, 16 for none.
#[derive(Clone, Copy)]
pub struct Pairs<'a> {
    pub sizes: &'a [u8],
    pub factors: &'a [u8],
    pub conditions: &'a [u8],
    pub effects: &'a [u8],
    pub variables: usize,
    pub ghost long: { (variables ≤ length sizes.now) × (variables ≤ length factors.now) × (variables ≤ length conditions.now) × (variables ≤ length effects.now) },
}
