// The later parts of a task record, field by field: lists of pairs, and actions. Refusals 1 and 5 to 7 come here, each at its field.
#![tactic(auto)]

ghost use Rattle.std.specs.Prelude.{◌≡◌, ◌+◌, ◌*◌, ◌<◌, ◌≤◌, ◌^◌, length, IfOk};
ghost use Rattle.fields.specs.Answers.{told, told_in};
ghost use Rattle.fields.specs.Fields.{next_field};
ghost use Rattle.parts.specs.Elsewhere.{Elsewhere};
ghost use Rattle.parts.specs.Grammar.{pair_of, pairs_from, counted_pairs, effect_pairs, costs_of, action_of, actions_from};

use fields::{BitReader, Field, Refusal};
use parts::{Actions, Costs, Pair};

// A pair of one of the variables of these sizes that is at least `low`. Where it is refused, the reader is at most behind it.
#[tactic(auto, unfolding(parts::specs::Grammar::pair_of))]
pub fn read_pair(r: &mut BitReader<'_>, sizes: &[u8], low: usize) -> Result<Pair, Refusal>
    requires { r.old.at < 2 ^ 31 }
    ensures told { pair_of (next_field r.old.bytes.now) sizes.now (length sizes.now) low r.old.at ≡ told result r.new.at }
    ensures moves { IfOk result (λ _. r.new.at ≡ r.old.at + 9) }
    ensures near { r.new.at ≤ r.old.at + 9 }
    ensures same_record { r.new.bytes ≡ r.old.bytes }
    ensures known { IfOk result (λ pair. pair.variable < length sizes.now) }
{
    let variable = r.read(Field::Variable)?;
    let v = variable as usize;
    if v < low || v >= sizes.len() {
        return Err(Refusal::PairVariable);
    }
    let value = r.read(Field::Value)?;
    if value >= sizes[v] as u16 {
        return Err(Refusal::PairValue);
    }
    Ok(Pair {
        variable: variable as u8,
        value: value as u8,
    })
}

// `count` pairs of the variables of these sizes, each value into `pairs` at `base` plus its variable. Where one is refused, the entries of this list, one for
// each variable from `base` on, are left to the program; all others stay as they were. Most of a record is pairs, so a reader of the loop's own goes from pair to
// pair: its place stays in a register.
pub fn read_pairs(
    r: &mut BitReader<'_>,
    sizes: &[u8],
    base: usize,
    count: usize,
    pairs: &mut [u8],
) -> Result<(), Refusal>
    requires { (r.old.at < 2 ^ 30) × (length sizes.now ≤ 32) × (count ≤ 63) × (base + 32 ≤ length pairs.old) }
    ensures told { pairs_from (next_field r.old.bytes.now) sizes.now (length sizes.now) base count pairs.old r.old.at
        ≡ told_in pairs.new result r.new.at }
    ensures near { r.new.at ≤ r.old.at + 9 * count }
    ensures same_record { r.new.bytes ≡ r.old.bytes }
    ensures elsewhere { Elsewhere base (length sizes.now) pairs.old pairs.new }
{
    let mut next = *r;
    let mut low = 0;
    for _ in 0..count {
        let pair = read_pair(&mut next, sizes, low)?;
        let v = pair.variable as usize;
        pairs[base + v] = pair.value;
        low = v + 1;
    }
    *r = next;
    Ok(())
}

// A list of pairs with its number in front: the goal's, or an action's conditions. Where it is refused, the entries of this list are left to the program; all
// others stay as they were.
#[tactic(auto, unfolding(parts::specs::Grammar::counted_pairs))]
pub fn read_list(
    r: &mut BitReader<'_>,
    sizes: &[u8],
    base: usize,
    pairs: &mut [u8],
) -> Result<(), Refusal>
    requires { (r.old.at < 2 ^ 29) × (length sizes.now ≤ 32) × (base + 32 ≤ length pairs.old) }
    ensures told { counted_pairs (next_field r.old.bytes.now) sizes.now (length sizes.now) base pairs.old r.old.at
        ≡ told_in pairs.new result r.new.at }
    ensures near { r.new.at ≤ r.old.at + 573 }
    ensures same_record { r.new.bytes ≡ r.old.bytes }
    ensures elsewhere { Elsewhere base (length sizes.now) pairs.old pairs.new }
{
    let count = r.read(Field::Pairs)?;
    read_pairs(r, sizes, base, count as usize, pairs)
}

// An action's effects: a list of pairs, and not an empty one. Where it is refused, the entries of this list are left to the program; all others stay as they
// were.
#[tactic(auto, unfolding(parts::specs::Grammar::effect_pairs))]
pub fn read_effects(
    r: &mut BitReader<'_>,
    sizes: &[u8],
    base: usize,
    pairs: &mut [u8],
) -> Result<(), Refusal>
    requires { (r.old.at < 2 ^ 29) × (length sizes.now ≤ 32) × (base + 32 ≤ length pairs.old) }
    ensures told { effect_pairs (next_field r.old.bytes.now) sizes.now (length sizes.now) base pairs.old r.old.at
        ≡ told_in pairs.new result r.new.at }
    ensures near { r.new.at ≤ r.old.at + 573 }
    ensures same_record { r.new.bytes ≡ r.old.bytes }
    ensures elsewhere { Elsewhere base (length sizes.now) pairs.old pairs.new }
{
    let count = r.read(Field::Pairs)?;
    if count == 0 {
        return Err(Refusal::NoEffects);
    }
    read_pairs(r, sizes, base, count as usize, pairs)
}

// An action's handling and distance. Where the record ends, the reader is at most behind them.
#[tactic(auto, unfolding(parts::specs::Grammar::costs_of))]
pub fn read_costs(r: &mut BitReader<'_>) -> Result<Costs, Refusal>
    requires { r.old.at < 2 ^ 29 }
    ensures told { costs_of (next_field r.old.bytes.now) r.old.at ≡ told result r.new.at }
    ensures moves { IfOk result (λ _. r.new.at ≡ r.old.at + 22) }
    ensures near { r.new.at ≤ r.old.at + 22 }
    ensures same_record { r.new.bytes ≡ r.old.bytes }
{
    let handling = r.read(Field::Handling)?;
    let distance = r.read(Field::Distance)?;
    Ok(Costs { handling, distance })
}

// Action i of a task whose variables have these sizes. Where it is refused, the entries of this action are left to the program; all others stay as they were.
#[tactic(auto, unfolding(parts::specs::Grammar::action_of))]
pub fn read_action(
    r: &mut BitReader<'_>,
    sizes: &[u8],
    i: usize,
    into: &mut Actions,
) -> Result<(), Refusal>
    requires { (r.old.at < 2 ^ 28) × (length sizes.now ≤ 32) × (i < 256) }
    ensures told { action_of (next_field r.old.bytes.now) sizes.now (length sizes.now) i into.old r.old.at ≡ told_in into.new result r.new.at }
    ensures near { r.new.at ≤ r.old.at + 1168 }
    ensures same_record { r.new.bytes ≡ r.old.bytes }
    ensures elsewhere { Elsewhere i 1 into.old.handling into.new.handling × Elsewhere i 1 into.old.distance into.new.distance
        × Elsewhere (i * 32) (length sizes.now) into.old.conditions into.new.conditions
        × Elsewhere (i * 32) (length sizes.now) into.old.effects into.new.effects }
{
    let costs = read_costs(r)?;
    into.handling[i] = costs.handling;
    into.distance[i] = costs.distance;
    read_list(r, sizes, i * 32, &mut into.conditions)?;
    read_effects(r, sizes, i * 32, &mut into.effects)
}

// `count` actions of a task whose variables have these sizes, the first as action 0. Where one is refused, the entries of these actions are left to the program;
// all others stay as they were.
pub fn read_actions(
    r: &mut BitReader<'_>,
    sizes: &[u8],
    count: usize,
    into: &mut Actions,
) -> Result<(), Refusal>
    requires { (r.old.at < 2 ^ 27) × (length sizes.now ≤ 32) × (count ≤ 255) }
    ensures told { actions_from (next_field r.old.bytes.now) sizes.now (length sizes.now) count 0 into.old r.old.at
        ≡ told_in into.new result r.new.at }
    ensures near { r.new.at ≤ r.old.at + 1168 * count }
    ensures same_record { r.new.bytes ≡ r.old.bytes }
    ensures elsewhere { Elsewhere 0 count into.old.handling into.new.handling
        × Elsewhere 0 count into.old.distance into.new.distance
        × Elsewhere 0 (count * 32) into.old.conditions into.new.conditions
        × Elsewhere 0 (count * 32) into.old.effects into.new.effects }
{
    for i in 0..count {
        read_action(r, sizes, i, into)?;
    }
    Ok(())
}
