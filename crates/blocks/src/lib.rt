// The blocks of open keys: keys are stored and retired, and the next node is chosen.
#![tactic(auto)]

ghost use Rattle.std.specs.Prelude.{◌≡◌, ◌+◌, ◌*◌, ◌≤◌, ◌<◌, IfSome, MatchOption, length, take, drop};
ghost use Rattle.leaf.specs.Price.{mark};
ghost use Rattle.blocks.specs.Choice.{NoneBelow, Picked};
ghost use Rattle.blocks.specs.Block.{block_size, least_in, NoneIs, Found, FirstInBlock, joined_by, LeastFrom, Blocked, fresh_to, lowered_to, blocked_to, raised_to, retired_to};

use keys::least;
use leaf::{MARK, fill};

// ---- the scan words

// How many scan words there are.
pub const SCAN_WORDS: usize = 17696;

// Where the words of the blocks begin among them, behind them the upper words, and where these end.
const BLOCK_WORDS: usize = 7184;

const UPPER_WORDS: usize = 7440;

const UPPER_END: usize = 7456;

// ---- blocks

// The words of all blocks to the mark, and the upper words, which stand behind them.
pub fn fresh(scan: &mut [u64; SCAN_WORDS])
    ensures { scan.new ≡ fresh_to scan.old 272 }
{
    fill(&mut scan[BLOCK_WORDS..UPPER_END]);
}

// The word at a place no higher than the key.
fn lower(scan: &mut [u64; SCAN_WORDS], at: usize, key: u64)
    requires { at < 17696 }
    ensures { scan.new ≡ lowered_to scan.old at key }
{
    scan[at] = scan[at].min(key);
}

// A node's key into the scan words: its block's word and the upper word are no higher than it.
pub fn set_key(scan: &mut [u64; SCAN_WORDS], node: usize, key: u64)
    requires { node < 4096 }
    ensures { scan.new ≡ blocked_to scan.old node key }
{
    scan[node] = key;
    lower(scan, BLOCK_WORDS + node / 16, key);
    lower(scan, UPPER_WORDS + node / 16 / 16, key);
}

// The keys of a block: 16, or those that are left.
fn keys_of_block(keys: &[u64], block: usize) -> &[u64]
    requires { block * 16 ≤ length keys.now }
    ensures { result.now ≡ take (block_size (length keys.now) block) (drop (block * 16) keys.now) }
{
    let start = block * 16;
    &keys[start..keys.len().min(start + 16)]
}

// The least of four words.
fn least_four(words: &[u64], from: usize) -> u64
    requires { from + 4 ≤ length words.now }
    ensures { LeastFrom words.now from 4 result }
{
    let low = words[from].min(words[from + 1]);
    let high = words[from + 2].min(words[from + 3]);
    low.min(high)
}

// The least of 16 words. They are compared in pairs, so that few comparisons wait for another.
fn least_block(words: &[u64]) -> u64
    requires { 16 ≤ length words.now }
    ensures { LeastFrom words.now 0 16 result }
{
    let low = least_four(words, 0).min(least_four(words, 4));
    let high = least_four(words, 8).min(least_four(words, 12));
    low.min(high)
}

// The least of the keys of a block; most blocks are full.
fn least_key(keys: &[u64]) -> u64
    ensures { result ≡ least_in keys.now (length keys.now) }
{
    if keys.len() == 16 {
        return least_block(keys);
    }
    least(keys)
}

// A block's word again the least of its keys: the words begin at `at`, the keys at `from`.
fn raise(scan: &mut [u64; SCAN_WORDS], from: usize, at: usize, block: usize, count: usize)
    requires { (from ≤ 7184) × (at ≤ 7440) × (block * 16 ≤ count) × (count ≤ 4096) }
    ensures { scan.new ≡ raised_to scan.old from at count block }
{
    let low = least_key(keys_of_block(&scan[from..from + count], block));
    scan[at + block] = low;
}

// The mark as the open key of a node, its block's word again the least of the block, and the upper word the least of its block words.
pub fn retire(scan: &mut [u64; SCAN_WORDS], node: usize, count: usize)
    requires { (count ≤ 4096) × (node < count) }
    ensures { scan.new ≡ retired_to scan.old node count }
{
    scan[node] = MARK;
    raise(scan, 0, BLOCK_WORDS, node / 16, count);
    raise(scan, BLOCK_WORDS, UPPER_WORDS, node / 16 / 16, 256);
}

// ---- the choice

// The first place of the least key below the bound, if one is.
fn pick(keys: &[u64], bound: u64) -> Option<usize>
    ensures { MatchOption result (NoneBelow bound keys.now (length keys.now)) (Picked bound keys.now (length keys.now)) }
{
    let mut low = bound;
    let mut chosen = None;
    for (u, &key) in keys.iter().enumerate() {
        if key < low {
            low = key;
            chosen = Some(u);
        }
    }
    chosen
}

// The first place of a word, if it is one of these. All are looked at, the last first: where the place is cannot be foretold, and a branch that is
// taken there takes longer.
fn find(words: &[u64], word: u64) -> Option<usize>
    ensures { Found words.now (length words.now) word result }
{
    let mut found = None;
    for k in (0..words.len()).rev() {
        if words[k] == word {
            found = Some(k);
        }
    }
    found
}

// The first place in two parts that stand one behind the other, `few` words in the first of them: the first part's, else the second part's behind it.
fn joined(first: Option<usize>, few: usize, second: Option<usize>) -> Option<usize>
    requires { (few ≤ 8) × IfSome second (λ k. k < 8) }
    ensures { result ≡ joined_by first few second }
{
    if first.is_some() {
        return first;
    }
    second.map(|k| few + k)
}

// The first place of a word among 16 words. They are looked at in four parts, so that few comparisons wait for another.
fn find_block(words: &[u64], word: u64) -> Option<usize>
    requires { length words.now ≡ 16 }
    ensures { Found words.now 16 word result }
{
    let first = find(&words[..4], word);
    let second = find(&words[4..8], word);
    let third = find(&words[8..12], word);
    let fourth = find(&words[12..16], word);
    let low = joined(first, 4, second);
    let high = joined(third, 4, fourth);
    joined(low, 8, high)
}

// The first place of a key in a block; most blocks are full.
fn find_key(keys: &[u64], word: u64) -> Option<usize>
    ensures { Found keys.now (length keys.now) word result }
{
    if keys.len() == 16 {
        return find_block(keys, word);
    }
    find(keys, word)
}

// The first place of a key that is in a block, among all keys.
fn place_of(keys: &[u64], block: usize, word: u64) -> usize
    requires { (block * 16 ≤ length keys.now) × (length keys.now ≤ 4096) × (NoneIs (drop (block * 16) keys.now) (block_size (length keys.now) block) word → ⊥) }
    ensures { FirstInBlock keys.now (length keys.now) block word result }
{
    block * 16 + find_key(keys_of_block(keys, block), word).unwrap()
}

// The node with the least key below the bound, the lowest on ties, if there is one. An upper word is picked, of those that the first `count` nodes have,
// and it is that key. So the block is the first of its 16 blocks whose word is the same, and the node the first in the block with that key.
pub fn choose(scan: &[u64; SCAN_WORDS], count: usize, bound: u64) -> Option<usize>
    requires { (count ≤ 4096) × (bound ≤ mark) × Blocked scan.now count }
    ensures { MatchOption result (NoneBelow bound scan.now count) (Picked bound scan.now count) }
{
    let upper = pick(&scan[UPPER_WORDS..UPPER_WORDS + (count + 255) / 256], bound)?;
    let word = scan[UPPER_WORDS + upper];
    let block = place_of(&scan[BLOCK_WORDS..UPPER_WORDS], upper, word);
    Some(place_of(&scan[..count], block, word))
}
