// What the search scans: chains of nodes, and the node that dominates.
#![tactic(auto)]

ghost use Rattle.std.specs.Prelude.{◌≡◌, ◌+◌, ◌*◌, ◌≤◌, ◌<◌, length};
ghost use Rattle.search.specs.Node.{dominates};
ghost use Rattle.rows.specs.Row.{row_in, node_in, Packed};
ghost use Rattle.rows.specs.Sign.{class_of, sign_of};
ghost use Rattle.dominance.specs.Held.{node_held};
ghost use Rattle.nodes.specs.Chain.{groups_in, slot_of, lacking, all_lack, has_room, group_for, with_group, opened_to, entry_of, with_entry, joined_to, linked_to, Chained, Dominator, Tried};

pub use blocks::SCAN_WORDS;
use blocks::set_key;
use dominance::{Candidate, test_row};

// Where parts of the scan words begin: the words of the groups.
const GROUPS: usize = 4096;

// The heads of the classes.
const HEADS: usize = 6144;

// The number of groups.
const GROUP_COUNT: usize = 7168;

// The signatures of the groups' entries.
const SIGNS: usize = 7456;

// The nodes of the entries, four in a word.
const ENTRIES: usize = 15648;

// ---- chains

// Whether the group that a head stands for has room for one entry more.
fn has_room(scan: &[u64; SCAN_WORDS], head: u64) -> bool
    ensures { result ≡ has_room scan.now head }
{
    if head == 0 {
        return false;
    }
    scan[GROUPS + ((head - 1) % 2048) as usize] / 65536 % 8 < 4
}

// A group without entries becomes the last of its class.
fn add_group(scan: &mut [u64; SCAN_WORDS], class: usize, group: usize)
    requires { (class < 1024) × (group < 2048) }
    ensures { scan.new ≡ with_group scan.old class group }
{
    let head = scan[HEADS + class] % 65536;
    scan[GROUPS + group] = (class * 8) as u64 * 65536 + head;
    scan[HEADS + class] = (group + 1) as u64;
    scan[GROUP_COUNT] = (group + 1) as u64;
}

// The group that the next node of a class goes to: the last of the class where that has room, else a new one.
fn group_for(scan: &mut [u64; SCAN_WORDS], class: usize) -> usize
    requires { class < 1024 }
    ensures { (result ≡ group_for scan.old class) × (scan.new ≡ opened_to scan.old class) }
{
    let head = scan[HEADS + class];
    if has_room(scan, head) {
        return ((head - 1) % 2048) as usize;
    }
    let group = (scan[GROUP_COUNT] % 2048) as usize;
    add_group(scan, class, group);
    group
}

// Entry `k` of the nodes of a group, which stand in one word, 16 bits each.
fn entry_of(nodes: u64, k: usize) -> usize
    requires { k < 4 }
    ensures { result ≡ entry_of nodes k }
{
    ((nodes >> (16 * k)) % 65536) as usize
}

// The same word with a node as entry `k` and nothing behind it.
fn with_entry(nodes: u64, k: usize, node: usize) -> u64
    requires { (k < 4) × (node < 4096) }
    ensures { result ≡ with_entry nodes k node }
{
    let unit = 1 << (16 * k);
    nodes % unit + node as u64 * unit
}

// A node with its signature as the next entry of a group.
fn join(scan: &mut [u64; SCAN_WORDS], group: usize, node: usize, sign: u64)
    requires { (group < 2048) × (node < 4096) }
    ensures { scan.new ≡ joined_to scan.old group node sign }
{
    let word = scan[GROUPS + group];
    let k = (word / 65536 % 4) as usize;
    let nodes = with_entry(scan[ENTRIES + group], k, node);
    scan[SIGNS + 4 * group + k] = sign;
    scan[ENTRIES + group] = nodes;
    scan[GROUPS + group] = word % 4294967296 + 65536;
}

// A node into the scan words: its key, its block's word and the upper word no higher than its key, and the node with its signature as an entry of the last
// group of its class.
pub fn link(scan: &mut [u64; SCAN_WORDS], node: usize, key: u64, sign: u64, class: usize)
    requires { (node < 4096) × (class < 1024) }
    ensures { scan.new ≡ linked_to scan.old node key sign class }
{
    set_key(scan, node, key);
    let group = group_for(scan, class);
    join(scan, group, node, sign);
}

// ---- dominance

// Whether node `u` dominates the candidate. `hint` is the place to look at first, as `test_row` says.
fn test_at(table: &[u64], u: usize, candidate: &Candidate<'_>, hint: &mut usize) -> bool
    requires { (u * (40 + candidate.now.states) + (40 + candidate.now.states) ≤ length table.now) × Packed (row_in candidate.now.states table.now u) }
    ensures { result ≡ dominates (node_in candidate.now.states table.now u) (node_held candidate.now) }
{
    let wide = 40 + candidate.states;
    let from = u * wide;
    test_row(&table[from..from + wide], candidate, hint)
}

// Whether a signature has a bit that another lacks.
fn lacks(sign: u64, theirs: u64) -> bool
    ensures { result ≡ lacking sign theirs }
{
    sign | theirs != theirs
}

// The same, by the signatures first; `theirs` is that of node `u`.
fn test_node(
    table: &[u64],
    u: usize,
    theirs: u64,
    candidate: &Candidate<'_>,
    hint: &mut usize,
) -> bool
    requires row { (u * (40 + candidate.now.states) + (40 + candidate.now.states) ≤ length table.now) × Packed (row_in candidate.now.states table.now u) }
    requires signed { theirs ≡ sign_of (node_in candidate.now.states table.now u).prices }
    ensures { result ≡ dominates (node_in candidate.now.states table.now u) (node_held candidate.now) }
{
    if lacks(candidate.sign, theirs) {
        return false;
    }
    test_at(table, u, candidate, hint)
}

// Whether the signatures of all entries of a group lack a bit of the signature. The four words stand side by side, and nothing branches between them.
fn all_lack(scan: &[u64; SCAN_WORDS], group: usize, sign: u64) -> bool
    requires { group < 2048 }
    ensures { result ≡ all_lack scan.now group sign }
{
    let from = SIGNS + 4 * group;
    let first = lacks(sign, scan[from]);
    let second = lacks(sign, scan[from + 1]);
    let third = lacks(sign, scan[from + 2]);
    let fourth = lacks(sign, scan[from + 3]);
    first & second & third & fourth
}

// The entries of a group are tried: the first of their nodes that dominates the candidate, if one does.
fn try_group(
    table: &[u64],
    count: usize,
    scan: &[u64; SCAN_WORDS],
    group: usize,
    candidate: &Candidate<'_>,
    hint: &mut usize,
) -> Option<usize>
    requires chained { (count ≤ 4096) × (count * (40 + candidate.now.states) ≤ length table.now) × Chained candidate.now.states table.now scan.now count }
    requires known { (group < groups_in scan.now) × (group < 2048) }
    ensures { Tried candidate.now.states table.now scan.now count (node_held candidate.now) group result }
{
    let fill = (scan[GROUPS + group] / 65536 % 8) as usize;
    let nodes = scan[ENTRIES + group];
    for k in 0..fill {
        let u = entry_of(nodes, k);
        let theirs = scan[SIGNS + 4 * group + k];
        if test_node(table, u, theirs, candidate, hint) {
            return Some(u);
        }
    }
    None
}

// A node that dominates the candidate, if one does: the groups of its class are tried, the last first, but for those whose signatures all lack a bit.
fn walk(
    table: &[u64],
    count: usize,
    scan: &[u64; SCAN_WORDS],
    class: usize,
    candidate: &Candidate<'_>,
) -> Option<usize>
    requires chained { (count ≤ 4096) × (count * (40 + candidate.now.states) ≤ length table.now) × Chained candidate.now.states table.now scan.now count }
    requires classed { (class ≡ class_of candidate.now.spot) × (class < 1024) }
    ensures { Dominator candidate.now.states table.now count (node_held candidate.now) result }
{
    let mut to = scan[HEADS + class] as usize;
    let mut hint = 0;
    while to > 0 {
        let group = to - 1;
        to = (scan[GROUPS + group] % 65536) as usize;
        if all_lack(scan, group, candidate.sign) {
            continue;
        }
        if let Some(u) = try_group(table, count, scan, group, candidate, &mut hint) {
            return Some(u);
        }
    }
    None
}

// The place of the recent number of a class and a signature.
pub fn slot_of(class: usize, sign: u64) -> usize
    requires { class < 4096 }
    ensures { result ≡ slot_of class sign }
{
    (class * 5 + (sign % 4093) as usize) % 4096
}

// The same as `walk`, but a node that dominated lately, or was kept, is tried before: `recent` is one more than its number, 0 for none. Which of several
// nodes that dominate is found is left to the program (`Dominator`).
pub fn dominator(
    table: &[u64],
    count: usize,
    scan: &[u64; SCAN_WORDS],
    class: usize,
    candidate: &Candidate<'_>,
    recent: usize,
) -> Option<usize>
    requires chained { (count ≤ 4096) × (count * (40 + candidate.now.states) ≤ length table.now) × Chained candidate.now.states table.now scan.now count }
    requires classed { class ≡ class_of candidate.now.spot }
    ensures { Dominator candidate.now.states table.now count (node_held candidate.now) result }
{
    if recent > 0 {
        if recent <= count {
            let mut hint = 0;
            if test_at(table, recent - 1, candidate, &mut hint) {
                return Some(recent - 1);
            }
        }
    }
    walk(table, count, scan, class, candidate)
}
