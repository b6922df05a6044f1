// Which actions' centre conditions hold in a centre state, found once for each of the centre states met lately.
//
// The known words are 64 slots of 576 bytes: a flag for each of 256 actions, the 32 values of the centre state, at 288 a 1 once the slot is filled, at 289
// how many actions are listed, and from 320 on those whose flag is set, by rising number. A centre state has its slot by its class; the last one that came
// to a slot stands there.
#![tactic(auto)]

ghost use Rattle.std.specs.Prelude.{◌≡◌, Bool, cond, true, ℕ, ◌+◌, ◌≤◌, ◌<◌, length, get_or};
ghost use Rattle.layer.specs.Board.{met_on};
ghost use Rattle.layer.specs.First.{Firsts, asks_of};
ghost use Rattle.layer.specs.Held.{board_in};
ghost use Rattle.mets.specs.Listed.{Listed};
ghost use Rattle.mets.specs.Known.{Flagged, Stored, Told, Slot, Known};

use layer::{Board, met_by};
use task::Centre;

// The first `count` bytes of `from`, in `into` from `at` on. A loop, since `copy_from_slice` asks whoever links the library for a `memmove`.
fn store(from: &[u8], into: &mut [u8], at: usize, count: usize)
    requires { (count ≤ length from.now) × (at + count ≤ length into.old) }
    ensures { Stored at count from.now into.old into.new }
{
    for j in 0..count {
        into[at + j] = from[j];
    }
}

// The flags of all actions, at the front of `flags`.
fn find(
    actions: usize,
    firsts: &[u8],
    values: &[u8],
    factors: [u8; 32],
    conditions: &[u8],
    centre: Centre,
    flags: &mut [u8],
)
    requires conditions { (actions ≤ 255) × (length conditions.now ≡ 8192) }
    requires firsts { Firsts (asks_of actions factors conditions.now) firsts.now }
    requires values { (values.now ≡ centre.values) × (length values.now ≡ 32) }
    requires flags { length flags.old ≡ 256 }
    ensures { Flagged (asks_of actions factors conditions.now) centre actions flags.new }
{
    for (a, flag) in flags[..actions].iter_mut().enumerate() {
        *flag = u8::from(met_by(firsts, values, factors, conditions, centre, a));
    }
}

// The actions whose flag is set are listed in the slot, by rising number. Each is written at the end of the list, which grows by its flag: without a branch
// that is quicker.
fn list_flagged(actions: usize, slot: &mut [u8])
    requires flags { (actions ≤ 255) × ((a : ℕ) → a < actions → get_or slot.old a 0 ≤ 1) }
    requires slot { length slot.old ≡ 576 }
    ensures kept { (i : ℕ) → i < 289 → get_or slot.new i 0 ≡ get_or slot.old i 0 }
    ensures listed { (p : ℕ → Bool) → ((a : ℕ) → a < actions → get_or slot.old a 0 ≡ cond (p a) 1 0)
        → Listed p actions (get_or slot.new 289 0) (λ j. get_or slot.new (320 + j) 0) }
{
    let mut count: usize = 0;
    for a in 0..actions {
        slot[320 + count] = a as u8;
        count += slot[a] as usize;
    }
    slot[289] = count as u8;
}

// Whether a slot is filled with what holds in the centre state of these values. All are compared: without a branch that is quicker.
fn is_known(slot: &[u8], values: &[u8]) -> bool
    requires { (length slot.now ≡ 576) × (length values.now ≡ 32) }
    ensures { result ≡ true → (get_or slot.now 288 0 ≡ 0 → ⊥)
        × ((v : ℕ) → v < 32 → get_or slot.now (256 + v) 0 ≡ get_or values.now v 0) }
{
    if slot[288] == 0 {
        return false;
    }
    let mut same = true;
    for v in 0..32 {
        same = same & (slot[256 + v] == values[v]);
    }
    same
}

// The slot of a class.
fn slot_of(class: usize) -> usize
    requires { class < 4096 }
    ensures { result < 64 }
{
    class % 64
}

// A slot is filled with what holds in a centre state, whose values are given.
fn fill(
    actions: usize,
    firsts: &[u8],
    values: &[u8],
    factors: [u8; 32],
    conditions: &[u8],
    centre: Centre,
    slot: &mut [u8],
)
    requires conditions { (actions ≤ 255) × (length conditions.now ≡ 8192) }
    requires firsts { Firsts (asks_of actions factors conditions.now) firsts.now }
    requires values { (values.now ≡ centre.values) × (length values.now ≡ 32) }
    requires slot { length slot.old ≡ 576 }
    ensures slot { Slot (asks_of actions factors conditions.now) (λ i. get_or slot.new i 0) }
    ensures told { Told (asks_of actions factors conditions.now) centre (λ i. get_or slot.new i 0) }
{
    let flags = &mut slot[0..256];
    find(actions, firsts, values, factors, conditions, centre, flags);
    slot[256..288].copy_from_slice(values);
    slot[288] = 1;
    list_flagged(actions, slot);
}

// Where the slot begins that holds what is known of a centre state of this class; it is filled where it holds another. Which slot that is, and so the words
// of `known` afterwards, is left to the program: what each slot holds is right (`Known`), and this one holds what is asked for (`Told`).
pub fn slot_for(
    actions: usize,
    firsts: &[u8],
    factors: [u8; 32],
    conditions: &[u8],
    centre: Centre,
    class: usize,
    known: &mut [u8],
) -> usize
    requires conditions { (actions ≤ 255) × (length conditions.now ≡ 8192) }
    requires firsts { Firsts (asks_of actions factors conditions.now) firsts.now }
    requires class { class < 4096 }
    requires known { Known (asks_of actions factors conditions.now) known.old }
    ensures inside { result + 576 ≤ 36864 }
    ensures known { Known (asks_of actions factors conditions.now) known.new }
    ensures told { Told (asks_of actions factors conditions.now) centre (λ i. get_or known.new (result + i) 0) }
{
    let values = centre.values;
    let at = slot_of(class) * 576;
    let end = at + 576;
    if is_known(&known[at..end], &values) {
        return at;
    }
    fill(
        actions,
        firsts,
        &values,
        factors,
        conditions,
        centre,
        &mut known[at..end],
    );
    at
}

// The actions whose centre conditions hold in a centre state of this class, by rising number, at the front of `list`: how many. Behind them `list` stays as
// it is, and its length stays. The words of `known` afterwards are left to the program: what each slot holds is right (`Known`).
pub fn list_mets(
    board: &Board<'_>,
    firsts: &[u8],
    centre: Centre,
    class: usize,
    known: &mut [u8],
    list: &mut [u8],
) -> usize
    requires firsts { Firsts (board_in board.now) firsts.now }
    requires class { class < 4096 }
    requires known { Known (board_in board.now) known.old }
    requires list { length list.old ≡ 256 }
    ensures known { Known (board_in board.now) known.new }
    ensures listed { Listed (met_on (board_in board.now) centre) board.now.actions result (λ j. get_or list.new j 0) }
    ensures few { result ≤ 256 }
    ensures behind { (k : ℕ) → result ≤ k → get_or list.new k 0 ≡ get_or list.old k 0 }
    ensures lengths { length list.new ≡ length list.old }
{
    let at = slot_for(
        board.actions,
        firsts,
        board.factors,
        board.conditions,
        centre,
        class,
        known,
    );
    let count = known[at + 289] as usize;
    let from = at + 320;
    let end = from + count;
    store(&known[from..end], list, 0, count);
    count
}
