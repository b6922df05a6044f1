// The first parts of a task record, field by field: head and variables, with the grammar of all parts. Refusals 1 to 4 come here, each at its field.
#![tactic(auto)]

ghost use Rattle.std.specs.Prelude.{◌≡◌, ◌+◌, ◌*◌, ◌<◌, ◌≤◌, ◌^◌, length, IfOk};
ghost use Rattle.fields.specs.Answers.{told, told_in};
ghost use Rattle.fields.specs.Fields.{next_field};
ghost use Rattle.parts.specs.Elsewhere.{Elsewhere};
ghost use Rattle.parts.specs.Grammar.{no_variables, no_actions, head_of, variable_of, variables_from};
ghost use Rattle.parts.specs.Grammar.Filled.{HeadIn};

use fields::{BitReader, Field, Refusal};
use task::FREE;

// How many variables, leaves and actions there are.
#[derive(Clone, Copy)]
pub struct Head {
    pub variables: u8,
    pub leaves: u8,
    pub actions: u8,
}

#[derive(Clone, Copy)]
pub struct Variable {
    pub size: u8,
    pub factor: u8,
    pub initial: u8,
}

// The variables, each at its number.
#[derive(Clone, Copy)]
pub struct Variables {
    pub sizes: [u8; 32],
    pub factors: [u8; 32],
    pub initial: [u8; 32],
}

impl Variables {
    // No variable yet: factors hold 16, which is no factor.
    pub fn blank() -> Variables
        ensures { result ≡ no_variables }
    {
        Variables {
            sizes: [0; 32],
            factors: [FREE; 32],
            initial: [0; 32],
        }
    }
}

// A variable, and the value that a condition, an effect or the goal names of it.
#[derive(Clone, Copy)]
pub struct Pair {
    pub variable: u8,
    pub value: u8,
}

// What an action's cost is made of.
#[derive(Clone, Copy)]
pub struct Costs {
    pub handling: u16,
    pub distance: u16,
}

// The actions, each at its number. What one names of variable v stands at 32 times the action plus v.
#[derive(Drop)]
pub struct Actions {
    pub handling: [u16; 256],
    pub distance: [u16; 256],
    pub conditions: [u8; 8192],
    pub effects: [u8; 8192],
}

impl Actions {
    // No action yet: conditions and effects name no variable.
    pub fn blank() -> Actions
        ensures { result ≡ no_actions }
    {
        Actions {
            handling: [0; 256],
            distance: [0; 256],
            conditions: [FREE; 8192],
            effects: [FREE; 8192],
        }
    }
}

// The counts. Where the record ends, the reader is at most behind the head.
#[tactic(auto, unfolding(crate::specs::Grammar::head_of))]
pub fn read_head(r: &mut BitReader<'_>) -> Result<Head, Refusal>
    requires { r.old.at < 2 ^ 31 }
    ensures told { head_of (next_field r.old.bytes.now) r.old.at ≡ told result r.new.at }
    ensures in_bounds { IfOk result HeadIn }
    ensures moves { IfOk result (λ _. r.new.at ≡ r.old.at + 16) }
    ensures near { r.new.at ≤ r.old.at + 16 }
    ensures same_record { r.new.bytes ≡ r.old.bytes }
{
    let variables = r.read(Field::Variables)?;
    let leaves = r.read(Field::Leaves)?;
    let actions = r.read(Field::Actions)?;
    Ok(Head {
        variables: (variables + 1) as u8,
        leaves: (leaves + 1) as u8,
        actions: actions as u8,
    })
}

// A variable of a task with so many leaves. Where it is refused, the reader is at most behind it.
#[tactic(auto, unfolding(crate::specs::Grammar::variable_of))]
pub fn read_variable(r: &mut BitReader<'_>, leaves: u8) -> Result<Variable, Refusal>
    requires { r.old.at < 2 ^ 31 }
    ensures told { variable_of (next_field r.old.bytes.now) leaves r.old.at ≡ told result r.new.at }
    ensures moves { IfOk result (λ _. r.new.at ≡ r.old.at + 12) }
    ensures near { r.new.at ≤ r.old.at + 12 }
    ensures same_record { r.new.bytes ≡ r.old.bytes }
{
    let less = r.read(Field::Size)?;
    if less == 0 {
        return Err(Refusal::SizeOne);
    }
    let factor = r.read(Field::Factor)?;
    if factor > leaves as u16 {
        return Err(Refusal::FactorUnknown);
    }
    let initial = r.read(Field::Initial)?;
    if initial > less {
        return Err(Refusal::InitialOutside);
    }
    Ok(Variable {
        size: (less + 1) as u8,
        factor: factor as u8,
        initial: initial as u8,
    })
}

// `n` variables, the first as variable 0. Where one is refused, the entries of these variables are left to the program; all others stay as they were.
pub fn read_variables(
    r: &mut BitReader<'_>,
    leaves: u8,
    n: usize,
    into: &mut Variables,
) -> Result<(), Refusal>
    requires { (r.old.at < 2 ^ 30) × (n ≤ 32) }
    ensures told { variables_from (next_field r.old.bytes.now) leaves n 0 into.old r.old.at ≡ told_in into.new result r.new.at }
    ensures near { r.new.at ≤ r.old.at + 12 * n }
    ensures same_record { r.new.bytes ≡ r.old.bytes }
    ensures elsewhere { Elsewhere 0 n into.old.sizes into.new.sizes × Elsewhere 0 n into.old.factors into.new.factors
        × Elsewhere 0 n into.old.initial into.new.initial }
{
    for i in 0..n {
        let v = read_variable(r, leaves)?;
        into.sizes[i] = v.size;
        into.factors[i] = v.factor;
        into.initial[i] = v.initial;
    }
    Ok(())
}
