// The prices of one leaf settle inside a layer, sweep by sweep, whatever tells what its actions make of a state.
#![tactic(auto)]

ghost use Rattle.std.specs.Prelude.{◌≡◌, true, ℕ, ◌+◌, ◌*◌, ◌<◌, ◌≤◌, length, get_or};
ghost use Rattle.leaf.specs.Price.{mark};
ghost use Rattle.leaf.specs.Settle.{settled};
ghost use Rattle.leaf.specs.Settle.Walks.{Ranged};
ghost use Rattle.leaf.specs.Settle.Sweeps.{Fell, Reach};
ghost use Rattle.leaf.specs.Lent.{cost_by, move_by};
ghost use Rattle.settle.specs.Settling.{Aim, Lowers, SweptBy, SettledBy};
ghost use Rattle.settle.specs.Listed.{LentBy};

use leaf::{MARK, add_price, lowered};

mod by_list;

pub use by_list::ListedActions;

// The actions of a leaf, as what lowers prices from one of its states.
pub trait LeafActions {
    // On a leaf of so many states the actions can be followed.
    ghost can_relax: { Self → ℕ → Type 0 };

    // They lead where so many actions of these costs lead, on a leaf of so many states.
    ghost meant: { Self → ℕ → ℕ → (ℕ → ℕ) → (ℕ → ℕ → ℕ) → Type 0 };

    // The actions lower the prices of what they make of state x, and a state whose price fell is dirty. Whether one fell that is not behind x.
    fn relax(&self, prices: &mut [u64], dirty: &mut [u8], x: usize) -> bool
        requires inside { x < length prices.old }
        requires room { length prices.old ≤ length dirty.old }
        requires can { can_relax self.now (length prices.old) }
        ensures lowers { Lowers (meant self.now (length prices.old)) x prices.old prices.new }
        ensures told { Fell mark x prices.old dirty.old result prices.new dirty.new };

    // No action leads out of the leaf.
    ghost stays: { (s : Self) (n m : ℕ) (cost : ℕ → ℕ) (to : ℕ → ℕ → ℕ) → meant s n m cost to → Ranged n m to };
}

// State x, where it is reached, is clean afterwards and has lowered the prices of what the actions make of it. Whether one fell
// that is not behind x.
fn set_out<A: LeafActions>(prices: &mut [u64], dirty: &mut [u8], actions: &A, x: usize) -> bool
    requires inside { x < length prices.old }
    requires room { length prices.old ≤ length dirty.old }
    requires can { A.can_relax actions.now (length prices.old) }
    ensures { (j k : ℕ) → Reach j k x (x + 1)
        → SweptBy (A.meant actions.now (length prices.old)) (length prices.old) j k x (x + 1) prices.old dirty.old result prices.new dirty.new }
{
    if prices[x] >= MARK {
        return false;
    }
    dirty[x] = 0;
    actions.relax(prices, dirty, x)
}

// State x sets out where it is dirty. Whether a price fell that is not behind x.
#[tactic(auto, using(leaf::specs::Settle::Sweeps::visit_clean))]
fn visit<A: LeafActions>(prices: &mut [u64], dirty: &mut [u8], actions: &A, x: usize) -> bool
    requires inside { x < length prices.old }
    requires room { length prices.old ≤ length dirty.old }
    requires can { A.can_relax actions.now (length prices.old) }
    ensures { SweptBy (A.meant actions.now (length prices.old)) (length prices.old) (length prices.old) (length prices.old) x (x + 1)
        prices.old dirty.old result prices.new dirty.new }
{
    if dirty[x] == 0 {
        return false;
    }
    set_out(prices, dirty, actions, x)
}

// Whether none of the four states from x on is reached.
fn four_far(prices: &[u64], x: usize) -> bool
    requires { x + 4 ≤ length prices.now }
    ensures { result ≡ true → (u : ℕ) → x ≤ u → u < x + 4 → mark ≤ get_or prices.now u mark }
{
    let a = prices[x] >= MARK;
    let b = prices[x + 1] >= MARK;
    let c = prices[x + 2] >= MARK;
    let d = prices[x + 3] >= MARK;
    (a & b) & (c & d)
}

// The states from `from` to `end`, by rising number, set out. Whether a price fell of a state that had its turn.
fn set_out_part<A: LeafActions>(
    prices: &mut [u64],
    dirty: &mut [u8],
    actions: &A,
    from: usize,
    end: usize,
) -> bool
    requires inside { (from ≤ end) × (end ≤ length prices.old) }
    requires room { length prices.old ≤ length dirty.old }
    requires can { A.can_relax actions.now (length prices.old) }
    ensures { SweptBy (A.meant actions.now (length prices.old)) (length prices.old) from end from end
        prices.old dirty.old result prices.new dirty.new }
{
    let mut fell = false;
    for x in from..end {
        fell |= set_out(prices, dirty, actions, x);
    }
    fell
}

// The four states from x on set out, where one of them is reached. Whether a price fell of a state that had its turn.
fn set_out_four<A: LeafActions>(prices: &mut [u64], dirty: &mut [u8], actions: &A, x: usize) -> bool
    requires inside { x + 4 ≤ length prices.old }
    requires room { length prices.old ≤ length dirty.old }
    requires can { A.can_relax actions.now (length prices.old) }
    ensures { SweptBy (A.meant actions.now (length prices.old)) (length prices.old) x (x + 4) x (x + 4)
        prices.old dirty.old result prices.new dirty.new }
{
    if four_far(prices, x) {
        return false;
    }
    set_out_part(prices, dirty, actions, x, x + 4)
}

// Every state once, by rising number: most are not reached, so four are looked at together. Whether a price fell of a state that had its turn.
fn first_sweep<A: LeafActions>(prices: &mut [u64], dirty: &mut [u8], actions: &A) -> bool
    requires room { length prices.old ≤ length dirty.old }
    requires can { A.can_relax actions.now (length prices.old) }
    ensures { SweptBy (A.meant actions.now (length prices.old)) (length prices.old) 0 (length prices.old) 0 (length prices.old)
        prices.old dirty.old result prices.new dirty.new }
{
    let mut fell = false;
    let mut x = 0;
    while prices.len() - x >= 4 {
        fell |= set_out_four(prices, dirty, actions, x);
        x += 4;
    }
    let last = prices.len();
    fell | set_out_part(prices, dirty, actions, x, last)
}

// Every dirty state once, by rising number. Whether a price fell of a state that had its turn.
fn sweep<A: LeafActions>(prices: &mut [u64], dirty: &mut [u8], actions: &A) -> bool
    requires room { length prices.old ≤ length dirty.old }
    requires can { A.can_relax actions.now (length prices.old) }
    ensures { SweptBy (A.meant actions.now (length prices.old)) (length prices.old) (length prices.old) (length prices.old)
        0 (length prices.old) prices.old dirty.old result prices.new dirty.new }
{
    let mut fell = false;
    for x in 0..prices.len() {
        fell |= visit(prices, dirty, actions, x);
    }
    fell
}

// The prices of a leaf settle by its actions: every state sets out once, and then the dirty ones as long as a price falls of one that had its turn.
pub fn settle_by<A: LeafActions>(prices: &mut [u64], actions: &A)
    requires few { length prices.old ≤ 256 }
    requires can { A.can_relax actions.now (length prices.old) }
    requires aim { Aim (A.meant actions.now (length prices.old)) }
    ensures { SettledBy (A.meant actions.now (length prices.old)) prices.old prices.new }
{
    let mut dirty = [0u8; 256];
    if !first_sweep(prices, &mut dirty, actions) {
        return;
    }
    while sweep(prices, &mut dirty, actions) {}
}

// The prices of a leaf settle by the actions of a list. Without actions none changes.
pub fn settle(prices: &mut [u64], actions: &ListedActions<'_>)
    requires few { length prices.old ≤ 256 }
    requires lent { LentBy actions.now (length prices.old) }
    ensures { prices.new
        ≡ settled mark (length actions.now.acts.now) (cost_by actions.now.costs.now actions.now.acts.now)
        (move_by actions.now.moves.now actions.now.row actions.now.at actions.now.acts.now)
        prices.old }
{
    if actions.acts.is_empty() {
        return;
    }
    settle_by(prices, actions);
}
