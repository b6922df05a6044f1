// The actions of a list.

ghost use Rattle.std.specs.Prelude.{◌≡◌, ◌+◌, ◌*◌, ◌<◌, length, get_or};
ghost use Rattle.settle.specs.Listed.{LentBy, ListMeant, list_stays};

use crate::LeafActions;
use leaf::{add_price, lowered};

// The actions of a list on the leaf whose states begin at `at`: what each makes of each leaf state, `row` moves an action, and what it costs.
#[derive(Clone, Copy)]
pub struct ListedActions<'a> {
    pub moves: &'a [u16],
    pub row: usize,
    pub at: usize,
    pub costs: &'a [u16],
    pub acts: &'a [u8],
}

impl ListedActions<'_> {
    // What an action makes of state x: one more than a state, or 0.
    fn move_of(&self, action: usize, x: usize) -> usize
        requires { action * self.now.row + (self.now.at + x) < length self.now.moves.now }
        ensures { result ≡ get_or self.now.moves.now (action * self.now.row + (self.now.at + x)) 0 }
    {
        self.moves[action * self.row + (self.at + x)] as usize
    }
}

impl LeafActions for ListedActions<'_> {
    ghost can_relax = { LentBy };

    ghost meant = { ListMeant };

    ghost stays = { list_stays };

    fn relax(&self, prices: &mut [u64], dirty: &mut [u8], x: usize) -> bool {
        let d = prices[x];
        let mut fell = false;
        for &a in self.acts {
            let action = a as usize;
            let k = self.move_of(action, x);
            let v = add_price(d, self.costs[action] as u64);
            fell |= lowered(prices, dirty, k, v, x);
        }
        fell
    }
}
