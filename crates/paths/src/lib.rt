// Paths of centre actions: whether one fits a task, and the layers along it to the last.
#![tactic(auto)]

ghost use Rattle.std.specs.Prelude.{◌≡◌, ℕ, ◌<◌, ◌≤◌, false, length, get_or, take, replicate, IfSome, IfNone};
ghost use Rattle.task.specs.Factors.{all_states};
ghost use Rattle.task.specs.Valid.{Valid};
ghost use Rattle.leaf.specs.Price.{mark};
ghost use Rattle.layer.specs.Board.{applies_on};
ghost use Rattle.layer.specs.Held.{board_in};
ghost use Rattle.tables.specs.Tables.{Bases, Kinds};
ghost use Rattle.price.specs.Path.{first_layer, walk};
ghost use Rattle.paths.specs.Paths.{walked, fits_by, Stepped};

use layer::{Board, applies, first_layer, next_layer, pairs_of};
use leaf::MARK;
use tables::{TaskTables, action_costs, fill_moves, leaf_starts};
use task::{Centre, Task};
use words::copy_words;

// Whether the path is short enough and each entry is a centre action.
pub fn path_fits(path: &[u8], kinds: &[u8], actions: usize) -> bool
    requires { (actions ≤ 255) × (length kinds.now ≡ 256) }
    ensures { result ≡ fits_by actions kinds.now path.now }
{
    if path.len() > 4095 {
        return false;
    }
    for &entry in path {
        let a = entry as usize;
        if a >= actions {
            return false;
        }
        if kinds[a] != 0 {
            return false;
        }
    }
    true
}

// One centre action of the walk. Where it applies: the centre state behind it, with the prices behind it at the front of `layer`.
fn advance(
    board: &Board<'_>,
    effects: &[u8],
    spot: Centre,
    action: usize,
    layer: &mut [u64],
) -> Option<Centre>
    requires action { action < board.now.actions }
    requires long { (length effects.now ≡ 8192) × (length layer.old ≡ 1024) }
    ensures none { IfNone result (applies_on (board_in board.now) spot layer.old action ≡ false) }
    ensures some { IfSome result (λ behind. Stepped (board_in board.now) effects.now spot action layer.old behind layer.new) }
{
    if !applies(board, spot, layer, action) {
        return None;
    }
    let mut next = [MARK; 1024];
    let behind = spot.after(board.factors, pairs_of(effects, action));
    next_layer(board, behind, action, layer, &mut next);
    let states = board.states();
    copy_words(&next, layer, states);
    Some(behind)
}

// The layers along the path. Where all its actions apply: the last centre state, with the last layer's prices at the front of `layer`. Every state of
// `layer` is lent as unreachable.
fn walk_path(tables: &TaskTables<'_>, path: &[u8], layer: &mut [u64]) -> Option<Centre>
    requires valid { Valid tables.now.task.now }
    requires by_index { (k : ℕ) → k < length path.now → get_or path.now k 0 < tables.now.task.now.actions }
    requires layer_value { layer.old ≡ replicate 1024 mark }
    ensures { walked result (take (all_states tables.now.task.now) layer.new) ≡ walk tables.now.task.now (first_layer tables.now.task.now) path.now }
{
    let task = tables.task;
    let board = &tables.board;
    let mut spot = Centre::default().after(task.factors, task.initial);
    first_layer(board, spot, tables.starts, layer);
    for &action in path {
        spot = advance(board, &task.effects, spot, action as usize, layer)?;
    }
    Some(spot)
}

// The walk, by tables that are made here; `layer` is lent with every state as unreachable.
pub fn walk_task(
    task: &Task,
    kinds: [u8; 256],
    bases: [usize; 9],
    path: &[u8],
    layer: &mut [u64],
) -> Option<Centre>
    requires valid { Valid task.now }
    requires kinds { Kinds task.now kinds × Bases task.now bases }
    requires by_index { (k : ℕ) → k < length path.now → get_or path.now k 0 < task.now.actions }
    requires layer_value { layer.old ≡ replicate 1024 mark }
    ensures { walked result (take (all_states task.now) layer.new) ≡ walk task.now (first_layer task.now) path.now }
{
    let mut moves = [0u16; 261120];
    fill_moves(task, bases, &mut moves);
    let costs = action_costs(task);
    let starts = leaf_starts(task);
    let tables = TaskTables::new(task, &bases, &moves, &costs, &kinds, &starts);
    walk_path(&tables, path, layer)
}
