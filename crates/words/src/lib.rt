// Lent words, copied and zeroed.
#![tactic(auto)]

ghost use Rattle.std.specs.Prelude.{◌≡◌, ◌++◌, ◌≤◌, length, take, drop, replicate};

// The first `count` words of `from`, at the front of `into`. A loop, and out of line: `copy_from_slice`, and a loop between two parts of one struct, would ask
// whoever links the library for a `memmove`.
#[inline(never)]
pub fn copy_words(from: &[u64], into: &mut [u64], count: usize)
    requires { (count ≤ length from.now) × (count ≤ length into.old) }
    ensures { into.new ≡ take count from.now ++ drop count into.old }
{
    for i in 0..count {
        into[i] = from[i];
    }
}

// The first `count` words are 0 afterwards.
pub fn zero_words(words: &mut [u64], count: usize)
    requires { count ≤ length words.old }
    ensures { words.new ≡ replicate count 0 ++ drop count words.old }
{
    words[..count].fill(0);
}
