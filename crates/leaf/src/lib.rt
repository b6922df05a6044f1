// The prices of one leaf: sums and the lower of two, and how they pass over a centre action.
#![tactic(auto)]

ghost use Rattle.std.specs.Prelude.{◌≡◌, not, ◌&&◌, ℕ, ◌+◌, ◌<◌, ◌≤◌, min, ltb, eqb, length, get_or, replicate};
ghost use Rattle.loops.specs.Count.{any};
ghost use Rattle.leaf.specs.Price.{mark};
ghost use Rattle.leaf.specs.Settle.{lower};
ghost use Rattle.leaf.specs.Settle.Sweeps.{Fell};
ghost use Rattle.leaf.specs.Pass.{pass};

// The price of a state that cannot be reached.
pub const MARK: u64 = 18446744073709551615;

// The price p and a cost c more, at most the mark.
pub fn add_price(p: u64, c: u64) -> u64
    ensures { result ≡ min (p + c) mark }
{
    if p > MARK - c {
        return MARK;
    }
    p + c
}

// The price of the state k - 1 is v where that is lower; k is 0 for no state.
fn lower(prices: &mut [u64], k: usize, v: u64)
    requires { k ≤ length prices.old }
    ensures { prices.new ≡ lower mark prices.old k v }
{
    if k == 0 {
        return;
    }
    let t = k - 1;
    if v < prices[t] {
        prices[t] = v;
    }
}

// The price of the state k - 1 is v where that is lower, and the state is then dirty; k is 0 for no state. Whether it fell and
// is not behind x: a state behind x has its turn later in a sweep.
pub fn lowered(prices: &mut [u64], dirty: &mut [u8], k: usize, v: u64, x: usize) -> bool
    requires { (k ≤ length prices.old) × (length prices.old ≤ length dirty.old) }
    ensures { (prices.new ≡ lower mark prices.old k v)
        × Fell mark x prices.old dirty.old result prices.new dirty.new }
{
    if k == 0 {
        return false;
    }
    let t = k - 1;
    if v >= prices[t] {
        return false;
    }
    prices[t] = v;
    dirty[t] = 1;
    t <= x
}

// Every price is the mark.
pub fn fill(prices: &mut [u64])
    ensures { prices.new ≡ replicate (length prices.old) mark }
{
    prices.fill(MARK);
}

// Each state of a leaf passes over a centre action, at its own price. The action's moves of the leaf begin at `at`; every state of `new` starts as
// unreachable.
pub fn pass(old: &[u64], moves: &[u16], at: usize, new: &mut [u64])
    requires { (new.old ≡ replicate (length old.now) mark) × (at + length old.now ≤ length moves.now)
        × ((x : ℕ) → x < length old.now → get_or moves.now (at + x) 0 ≤ length old.now) }
    ensures { new.new
        ≡ pass mark (length old.now) (λ x. get_or moves.now (at + x) 0) old.now (length old.now) }
{
    for (x, price) in old.iter().enumerate() {
        lower(new, moves[at + x] as usize, *price);
    }
}

// Whether a state with price p passes, where the action makes k of it.
fn state_passes(p: u64, k: u16) -> bool
    ensures { result ≡ (ltb p mark && not (eqb k 0)) }
{
    p < MARK && k != 0
}

// Whether a state of a leaf passes over a centre action.
pub fn passes(prices: &[u64], moves: &[u16], at: usize) -> bool
    requires { at + length prices.now ≤ length moves.now }
    ensures { result ≡ any (length prices.now)
        (λ x. ltb (get_or prices.now x mark) mark && not (eqb (get_or moves.now (at + x) 0) 0)) }
{
    prices
        .iter()
        .zip(&moves[at..])
        .any(|(price, next)| state_passes(*price, *next))
}
