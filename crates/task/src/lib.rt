// The task as the reader hands it over, and the centre state. What a task means stands in specs/: Meaning first, then Factors.
#![tactic(auto)]

ghost use Rattle.std.specs.Prelude.{◌≡◌, cond, ◌&&◌, eqb, get_or};
ghost use Rattle.task.specs.Factors.{named};
ghost use Rattle.task.specs.Centre.{blank_centre, centre_after};

// In a condition, an effect or the goal: the variable is not named. No value is 16.
pub const FREE: u8 = 16;

// A task. Entries behind the last variable or action hold one fixed value: 0, or 16 in factors, goal, conditions and effects.
// What an action names of variable v stands at 32 times the action plus v.
#[derive(Clone, Copy)]
pub struct Task {
    pub variables: u8,
    pub leaves: u8,
    pub actions: u8,
    pub sizes: [u8; 32],
    pub factors: [u8; 32],
    pub initial: [u8; 32],
    pub goal: [u8; 32],
    pub handling: [u16; 256],
    pub distance: [u16; 256],
    pub conditions: [u8; 8192],
    pub effects: [u8; 8192],
}

// A centre state: the value of each centre variable at its number, 0 elsewhere.
#[derive(Clone, Copy, PartialEq, Eq)]
pub struct Centre {
    pub values: [u8; 32],
}

// A variable's next value: the effect's, where the variable is the centre's and the effect names it.
fn next_value(factor: u8, effect: u8, value: u8) -> u8
    ensures { result ≡ cond (eqb factor 0 && named effect) effect value }
{
    if factor == 0 && effect != FREE {
        return effect;
    }
    value
}

// Every entry 0, before any value is set.
impl Default for Centre {
    ghost is_default = { λ centre. centre ≡ blank_centre };

    fn default() -> Centre {
        Centre { values: [0; 32] }
    }
}

impl Centre {
    // The next centre state: each centre variable that the effects name takes its value from them.
    pub fn after(mut self, factors: [u8; 32], effects: [u8; 32]) -> Centre
        ensures { result ≡ centre_after (λ v. get_or factors v 0) (λ v. get_or effects v 0) self }
    {
        for (v, value) in self.values.iter_mut().enumerate() {
            *value = next_value(factors[v], effects[v], *value);
        }
        self
    }
}
