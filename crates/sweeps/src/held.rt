// What prices settle along, held together.
#![tactic(auto)]

ghost use Rattle.std.specs.Prelude.{◌≡◌, ◌+◌, ◌*◌, ◌<◌, ◌≤◌, min, length, get_or};
ghost use Rattle.leaf.specs.Price.{mark};
ghost use Rattle.leaf.specs.Settle.{lower};
ghost use Rattle.leaf.specs.Settle.Sweeps.{Fell};
ghost use Rattle.sweeps.specs.Sweeps.{gated};
ghost use Rattle.sweeps.specs.Held.{move_in, WaysIn, MeantIn};

use edges::EdgeTable;
use leaf::{add_price, lowered};
use settle::LeafActions;

// How a leaf's states lead to one another: what each action makes of each leaf state, `row` moves an action, of which the leaf's begin at `at`; what the
// actions cost; which of them have their flag set; and the edges of each state.
#[derive(Clone, Copy)]
pub struct LeafWays<'a> {
    pub moves: &'a [u16],
    pub row: usize,
    pub at: usize,
    pub costs: &'a [u16],
    pub mets: &'a [u8],
    pub edges: EdgeTable<'a>,
}

impl LeafWays<'_> {
    // An action whose flag is set lowers the price of what it makes of state x, whose price is d. Whether a price fell that is not behind x.
    fn follow(&self, prices: &mut [u64], dirty: &mut [u8], action: usize, x: usize, d: u64) -> bool
        requires action { (action < length self.now.costs.now) × (action < length self.now.mets.now) }
        requires place { action * self.now.row + (self.now.at + x) < length self.now.moves.now }
        requires inside { move_in self.now action x ≤ length prices.old }
        requires room { length prices.old ≤ length dirty.old }
        ensures lowers { prices.new ≡ lower mark prices.old (gated (get_or self.now.mets.now action 0) (move_in self.now action x))
            (min (d + get_or self.now.costs.now action 0) mark) }
        ensures told { Fell mark x prices.old dirty.old result prices.new dirty.new }
    {
        if self.mets[action] == 0 {
            return false;
        }
        let k = self.moves[action * self.row + (self.at + x)] as usize;
        let v = add_price(d, self.costs[action] as u64);
        lowered(prices, dirty, k, v, x)
    }
}

// A state looks only at its edges, and follows those whose flag is set.
impl LeafActions for LeafWays<'_> {
    ghost can_relax = { WaysIn };

    ghost meant = { MeantIn };

    ghost stays = { λ s n m cost to meant. meant.ranged };

    fn relax(&self, prices: &mut [u64], dirty: &mut [u8], x: usize) -> bool {
        let d = prices[x];
        let mut fell = false;
        for &a in self.edges.of(self.at + x) {
            fell |= self.follow(prices, dirty, a as usize, x, d);
        }
        fell
    }
}
