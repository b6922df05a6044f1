// Detours: a hop behind a hop that goes back, or in place of which one hop goes all the way at no higher cost. What it makes is dealt with already.
#![tactic(auto)]

ghost use Rattle.std.specs.Prelude.{◌≡◌, ℕ, ◌+◌, ◌*◌, ◌≤◌, ◌<◌, length, get_or};
ghost use Rattle.detours.specs.Detours.{detours, detours_from, kept_of, kept_in, same_front, hop_behind};

// Whether action k behind a hop is a detour; `from` is 16 times the hop's variable plus the value that it left, c its cost.
fn is_detour(hops: &[u16], ways: &[u8], costs: &[u16], from: usize, c: u16, k: usize) -> bool
    requires { (length hops.now ≡ 256) × (length ways.now ≡ 8192) × (length costs.now ≡ 256) × (from < 512) × (k < 256)
        × (get_or hops.now k 0 ≤ 8192) }
    ensures { result ≡ detours_from hops.now ways.now costs.now from c k }
{
    let word = hops[k] as usize;
    if word == 0 {
        return false;
    }
    let g = word - 1;
    if from / 16 != g / 256 {
        return false;
    }
    let into = g % 16;
    if from % 16 == into {
        return true;
    }
    let way = ways[from * 16 + into] as usize;
    if way == 0 {
        return false;
    }
    costs[way - 1] as u32 <= c as u32 + costs[k] as u32
}

// Of the listed actions those stay that are no detours behind a hop of this word and cost, in their order, at the front of `list`: how many.
pub fn drop_detours(
    hops: &[u16],
    ways: &[u8],
    costs: &[u16],
    word: u16,
    c: u16,
    list: &mut [u8],
    count: usize,
) -> usize
    requires { (length hops.now ≡ 256) × (length ways.now ≡ 8192) × (length costs.now ≡ 256) × (length list.old ≡ 256) × (count ≤ 256)
        × (word ≤ 8192) × (word ≡ 0 → ⊥) × ((k : ℕ) → get_or hops.now k 0 ≤ 8192) }
    ensures { (result ≡ kept_of (detours hops.now ways.now costs.now word c) list.old count)
        × (list.new ≡ kept_in (detours hops.now ways.now costs.now word c) list.old count) }
{
    let from = (word as usize - 1) / 16;
    let mut kept: usize = 0;
    for j in 0..count {
        let k = list[j];
        list[kept] = k;
        if !is_detour(hops, ways, costs, from, c, k as usize) {
            kept += 1;
        }
    }
    kept
}

// Whether the first words of `ys` are those of `xs`. The bits in which they are apart are gathered: without a branch that is quicker.
fn same_words(xs: &[u64], ys: &[u64]) -> bool
    requires { length xs.now ≤ length ys.now }
    ensures { result ≡ same_front xs.now ys.now }
{
    let mut apart: u64 = 0;
    for (j, x) in xs.iter().enumerate() {
        apart = apart | (*x ^ ys[j]);
    }
    apart == 0
}

// The word of the hop that made node u of its parent, where the node has its parent's prices, which `prices` begins with; else 0. With 128 states or more
// detours are too few for the prices to be compared, and it is 0 too.
pub fn hop_behind(
    table: &[u64],
    states: usize,
    actions: usize,
    hops: &[u16],
    u: usize,
    prices: &[u64],
) -> u16
    requires { (states ≤ 1024) × (u < 4096) × (u * (40 + states) + (40 + states) ≤ length table.now) × (length hops.now ≡ 256) × (actions ≤ 255)
        × (states ≤ length prices.now) }
    ensures { result ≡ hop_behind states actions table.now hops.now u prices.now }
{
    if states >= 128 {
        return 0;
    }
    let wide = 40 + states;
    let at = u * wide;
    let parent = table[at + 33];
    let action = table[at + 34];
    if parent >= u as u64 {
        return 0;
    }
    if action >= actions as u64 {
        return 0;
    }
    let word = hops[action as usize];
    if word == 0 {
        return 0;
    }
    let from = parent as usize * wide + 40;
    let end = from + states;
    if !same_words(&table[from..end], prices) {
        return 0;
    }
    word
}
