// Hops: centre actions that move one centre variable and leave all leaves alone, such as the drives of a carriage.
#![tactic(auto)]

ghost use Rattle.std.specs.Prelude.{◌≡◌, ℕ, ◌+◌, ◌*◌, ◌≤◌, ◌<◌, length, get_or};
ghost use Rattle.layer.specs.First.{Firsts};
ghost use Rattle.layer.specs.Held.{board_in};
ghost use Rattle.stills.specs.Still.{StillOn};
ghost use Rattle.hops.specs.Hops.{names_only, pair_word, hop_word, hops_by, ways_by};

use layer::Board;
use task::FREE;

// Whether an action's row of conditions or effects, which begins at `at`, names no variable but v. All are looked at: without a branch that is quicker.

fn names_only(pairs: &[u8], at: usize, v: usize) -> bool
    requires { at + 32 ≤ length pairs.now }
    ensures { result ≡ names_only pairs.now at v }
{
    let mut alone = true;
    for (w, &pair) in pairs[at..at + 32].iter().enumerate() {
        alone = alone & ((w == v) | (pair == FREE));
    }
    alone
}

// The word of action a where its conditions and effects name variable v and no other, else 0.
#[tactic(auto, using(std::proofs::lemmas::Grind::common_steps), unfolding(crate::specs::Hops::pair_word))]
fn pair_word(conditions: &[u8], effects: &[u8], a: usize, v: usize) -> u16
    requires { (length conditions.now ≡ 8192) × (length effects.now ≡ 8192) × (a < 256) × (v < 32) }
    ensures { result ≡ pair_word conditions.now effects.now a v }
{
    let from = conditions[a * 32 + v] as u16;
    let into = effects[a * 32 + v] as u16;
    if from >= 16 {
        return 0;
    }
    if into >= 16 {
        return 0;
    }
    if !names_only(conditions, a * 32, v) {
        return 0;
    }
    if !names_only(effects, a * 32, v) {
        return 0;
    }
    1 + 256 * v as u16 + 16 * from + into
}

// Action a's word: 0, or that of a hop.
#[tactic(auto, using(std::proofs::lemmas::Grind::common_steps), unfolding(crate::specs::Hops::hop_word))]
fn hop_word(board: &Board<'_>, effects: &[u8], firsts: &[u8], still: &[u8], a: usize) -> u16
    requires effects { length effects.now ≡ 8192 }
    requires firsts { Firsts (board_in board.now) firsts.now }
    requires still { StillOn (board_in board.now) still.now }
    requires a_lt_actions { a < board.now.actions }
    ensures { result ≡ hop_word board.now.kinds.now board.now.conditions.now effects.now firsts.now still.now a }
{
    if board.kinds[a] != 0 {
        return 0;
    }
    if still[a] == 0 {
        return 0;
    }
    let v = firsts[a] as usize;
    if v >= 32 {
        return 0;
    }
    pair_word(board.conditions, effects, a, v)
}

// The word of each action.
pub fn list_hops(board: &Board<'_>, effects: &[u8], firsts: &[u8], still: &[u8]) -> [u16; 256]
    requires effects { length effects.now ≡ 8192 }
    requires firsts { Firsts (board_in board.now) firsts.now }
    requires still { StillOn (board_in board.now) still.now }
    ensures { result ≡ hops_by board.now.actions board.now.kinds.now board.now.conditions.now effects.now firsts.now still.now }
{
    let mut hops = [0u16; 256];
    for (a, word) in hops[..board.actions].iter_mut().enumerate() {
        *word = hop_word(board, effects, firsts, still, a);
    }
    hops
}

// For each hop from a value of a variable to another, one more than the last action that makes it; 0 where none does.
#[tactic(auto, using(crate::specs::Hops::Laws::way_pass, crate::specs::Hops::Laws::way_more), unfolding(crate::specs::Hops::ways_by))]
pub fn list_ways(actions: usize, hops: &[u16]) -> [u8; 8192]
    requires { (actions ≤ 255) × (length hops.now ≡ 256) × ((k : ℕ) → get_or hops.now k 0 ≤ 8192) }
    ensures { result ≡ ways_by hops.now actions }
{
    let mut ways = [0u8; 8192];
    for (a, &word) in hops[..actions].iter().enumerate() {
        if word != 0 {
            ways[word as usize - 1] = a as u8 + 1;
        }
    }
    ways
}
