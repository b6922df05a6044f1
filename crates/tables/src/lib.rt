// The tables that the layers and the search work with, made once from an accepted task.
#![tactic(auto)]

ghost use Rattle.std.specs.Prelude.{◌≡◌, true, ℕ, suc, ◌*◌, ◌+◌, ◌<◌, ◌≤◌, length, get_or};
ghost use Rattle.drive.specs.Drive.{drive_time};
ghost use Rattle.task.specs.Factors.{number_to, star_pairs, states_to, all_states};
ghost use Rattle.task.specs.Valid.{dearest, Valid};
ghost use Rattle.digits.specs.Digits.{entries, entries_from, Each, Filled, Same, start_of};
ghost use Rattle.layer.specs.Held.{board_in};
ghost use Rattle.tables.specs.Tables.{KindIs, Bases, Starts, Costs, Kinds, Moves, Goals, Tabled};
ghost use Rattle.tables.specs.Fit.{board_of};

use digits::{Pairs, fill_action, fill_rows};
use layer::Board;
use task::{FREE, Task};

mod held;

pub use held::TaskTables;

impl<'a> TaskTables<'a> {
    // The tables of a task, held together with it.
    pub fn new(
        task: &'a Task,
        bases: &'a [usize],
        moves: &'a [u16],
        costs: &'a [u16],
        kinds: &'a [u8],
        starts: &'a [usize],
    ) -> Self
        requires valid { Valid task.now }
        requires tabled { Tabled task.now bases.now moves.now costs.now kinds.now starts.now }
        ensures task { result.task.now ≡ task.entry.now }
        ensures board { board_in result.board ≡ board_of task.entry.now bases.entry.now moves.entry.now costs.entry.now kinds.entry.now }
        ensures starts { result.starts.now ≡ starts.entry.now }
    {
        let board = Board {
            leaves: task.leaves as usize,
            actions: task.actions as usize,
            bases,
            moves,
            costs,
            kinds,
            factors: task.factors,
            conditions: &task.conditions,
        };
        TaskTables {
            task,
            board,
            starts,
        }
    }
}

// ---- where each leaf's states begin

// The sums of the leaves' states: entry i counts those of the i leaves before.
fn bases_of(sizes: &[u8], factors: &[u8], variables: usize, leaves: usize) -> [usize; 9]
    requires variables_in_bounds { (variables ≤ length sizes.now) × (variables ≤ length factors.now) × (leaves ≤ 8) }
    requires by_index { (i : ℕ) → i < leaves → states_to (entries factors.now) (entries sizes.now) (suc i) variables ≤ 256 }
    ensures { (length result ≡ 9) × Filled (leaves + 1) (start_of variables (entries factors.now) (entries sizes.now)) result }
{
    let mut bases: [usize; 9] = [0; 9];
    let mut sum: usize = 0;
    for i in 0..leaves {
        sum += whole::states_capped(&sizes[..variables], &factors[..variables], i + 1) as usize;
        bases[i + 1] = sum;
    }
    bases
}

// Where the states of each leaf begin, and behind the last leaf the count of all states. The entries behind that are left to the program.
pub fn leaf_bases(task: &Task) -> [usize; 9]
    requires { Valid task.now }
    ensures { Bases task.now result }
{
    bases_of(
        &task.sizes,
        &task.factors,
        task.variables as usize,
        task.leaves as usize,
    )
}

// ---- the initial state of each leaf

// The number of a factor's state, from the values of its variables. Three lists are read at each variable's place, so the loop goes by its number.
fn number_of(sizes: &[u8], factors: &[u8], values: &[u8], variables: usize, factor: usize) -> usize
    requires variables_in_bounds { (variables ≤ length sizes.now) × (variables ≤ length factors.now) × (variables ≤ length values.now) }
    requires by_index { (v : ℕ) → v < variables → get_or values.now v 0 < get_or sizes.now v 0 }
    requires variables_bound { states_to (entries factors.now) (entries sizes.now) factor variables ≤ 256 }
    ensures { result ≡ number_to (entries factors.now) (entries sizes.now) factor (entries values.now) variables }
{
    let mut number: usize = 0;
    for v in 0..variables {
        if whole::is_factor(factors[v], factor) {
            number = number * (sizes[v] as usize) + (values[v] as usize);
        }
    }
    number
}

// The number of each leaf's state.
fn starts_of(
    sizes: &[u8],
    factors: &[u8],
    values: &[u8],
    variables: usize,
    leaves: usize,
) -> [usize; 8]
    requires variables_in_bounds { (variables ≤ length sizes.now) × (variables ≤ length factors.now) × (variables ≤ length values.now) × (leaves ≤ 8) }
    requires by_index { (v : ℕ) → v < variables → get_or values.now v 0 < get_or sizes.now v 0 }
    requires by_index_2 { (i : ℕ) → i < leaves → states_to (entries factors.now) (entries sizes.now) (suc i) variables ≤ 256 }
    ensures { (length result ≡ 8) × Filled leaves (λ i. number_to (entries factors.now) (entries sizes.now) (suc i) (entries values.now) variables) result }
{
    let mut starts: [usize; 8] = [0; 8];
    for (i, start) in starts[..leaves].iter_mut().enumerate() {
        *start = number_of(sizes, factors, values, variables, i + 1);
    }
    starts
}

// The initial state of each leaf. The entries behind the last leaf's are left to the program.
pub fn leaf_starts(task: &Task) -> [usize; 8]
    requires { Valid task.now }
    ensures { Starts task.now result }
{
    starts_of(
        &task.sizes,
        &task.factors,
        &task.initial,
        task.variables as usize,
        task.leaves as usize,
    )
}

// ---- what each action costs

// Each action's handling plus the drive time of its distance, which together fit.
fn costs_of(handling: &[u16], distance: &[u16], actions: usize) -> [u16; 256]
    requires actions_in_bounds { (actions ≤ length handling.now) × (actions ≤ length distance.now) × (actions ≤ 256) }
    requires by_index { (a : ℕ) → a < actions → get_or handling.now a 0 + drive_time (get_or distance.now a 0) ≤ dearest }
    ensures { (length result ≡ 256) × Filled actions (λ a. get_or handling.now a 0 + drive_time (get_or distance.now a 0)) result }
{
    let mut costs: [u16; 256] = [0; 256];
    for (a, cost) in costs[..actions].iter_mut().enumerate() {
        let time = drive::drive_time(distance[a]);
        *cost = handling[a] + time;
    }
    costs
}

// What each action costs. The entries behind the last action's are left to the program.
pub fn action_costs(task: &Task) -> [u16; 256]
    requires { Valid task.now }
    ensures { Costs task.now result }
{
    costs_of(&task.handling, &task.distance, task.actions as usize)
}

// ---- the leaf of each leaf action

// The leaf of the leaf action with these pairs, or 0 for a centre action.
fn kind_of(pairs: &Pairs<'_>, leaves: usize) -> u8
    requires few_leaves { leaves ≤ 8 }
    requires star { star_pairs pairs.now.variables (entries pairs.now.factors.now) leaves (entries pairs.now.conditions.now) (entries pairs.now.effects.now) ≡ true }
    ensures { KindIs pairs.now.variables (entries pairs.now.factors.now) leaves (entries pairs.now.conditions.now) (entries pairs.now.effects.now) result }
{
    let owners = &pairs.factors[..pairs.variables];
    let needs = &pairs.conditions[..pairs.variables];
    let makes = &pairs.effects[..pairs.variables];
    if whole::touches_centre(owners, makes) {
        return 0;
    }
    for i in 0..leaves {
        if whole::leaf_pairs(owners, needs, makes, i + 1) {
            return (i + 1) as u8;
        }
    }
    0
}

// The leaf of each action, 0 for centre actions. The pairs are those of all actions, 32 each.
fn kinds_of(pairs: &Pairs<'_>, leaves: usize, actions: usize) -> [u8; 256]
    requires few { (pairs.now.variables ≤ 32) × (leaves ≤ 8) × (actions ≤ 255) }
    requires in_bounds { (8192 ≤ length pairs.now.conditions.now) × (8192 ≤ length pairs.now.effects.now) }
    requires star { (a : ℕ) → a < actions → star_pairs pairs.now.variables (entries pairs.now.factors.now) leaves (entries_from (a * 32) pairs.now.conditions.now) (entries_from (a * 32) pairs.now.effects.now) ≡ true }
    ensures { (length result ≡ 256) × Each actions (λ a k. KindIs pairs.now.variables (entries pairs.now.factors.now) leaves (entries_from (a * 32) pairs.now.conditions.now) (entries_from (a * 32) pairs.now.effects.now) k) result }
{
    let mut kinds: [u8; 256] = [0; 256];
    for (a, kind) in kinds[..actions].iter_mut().enumerate() {
        *kind = kind_of(&pairs.behind(a * 32), leaves);
    }
    kinds
}

// The leaf of each leaf action, 0 for centre actions. The entries behind the last action's are left to the program.
pub fn action_kinds(task: &Task) -> [u8; 256]
    requires { Valid task.now }
    ensures { Kinds task.now result }
{
    let pairs = Pairs {
        sizes: &task.sizes,
        factors: &task.factors,
        conditions: &task.conditions,
        effects: &task.effects,
        variables: task.variables as usize,
    };
    kinds_of(&pairs, task.leaves as usize, task.actions as usize)
}

// ---- what each action makes of each leaf state

// What each action makes of each leaf state: a row of as many entries as there are leaf states for each action.
pub fn fill_moves(task: &Task, bases: [usize; 9], moves: &mut [u16])
    requires valid { Valid task.now }
    requires bases { Bases task.now bases }
    requires task_in_bounds { task.now.actions * all_states task.now ≤ length moves.old }
    ensures moves { Moves task.now moves.new }
    ensures same { Same 0 (task.now.actions * all_states task.now) moves.old moves.new }
{
    let pairs = Pairs {
        sizes: &task.sizes,
        factors: &task.factors,
        conditions: &task.conditions,
        effects: &task.effects,
        variables: task.variables as usize,
    };
    fill_rows(
        &pairs,
        &bases,
        task.leaves as usize,
        task.actions as usize,
        moves,
    );
}

// Not 0 at each leaf state that meets the goal: what an action makes of it whose conditions are the goal's pairs, and that has no effects. Which number it
// is there, and the entries behind the last leaf state's, are left to the program.
pub fn leaf_goals(task: &Task, bases: [usize; 9]) -> [u16; 1024]
    requires valid { Valid task.now }
    requires bases { Bases task.now bases }
    ensures { Goals task.now result }
{
    let none = [FREE; 32];
    let pairs = Pairs {
        sizes: &task.sizes,
        factors: &task.factors,
        conditions: &task.goal,
        effects: &none,
        variables: task.variables as usize,
    };
    let mut goals = [0u16; 1024];
    fill_action(&pairs, &bases[..task.leaves as usize], 0, &mut goals);
    goals
}
