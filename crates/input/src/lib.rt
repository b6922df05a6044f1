// What the programs read of their input: as many bytes as a buffer has, and the length that stands in front of a byte string.
#![tactic(auto)]

ghost use Rattle.std.specs.Prelude.{◌≡◌, ◌+◌, ◌*◌, ◌≤◌, length, IfSome};

use std::io::Read;

// Reads until `buf` is full, the input ends or a read fails, and returns how many bytes it put at the start of `buf`.
pub fn read_full(input: &mut impl Read, buf: &mut [u8]) -> usize
    ensures { result ≤ length buf.new }
{
    let mut done = 0;
    while done < buf.len() {
        match input.read(&mut buf[done..]) {
            Ok(0) | Err(_) => break,
            Ok(n) => done += n,
        }
    }
    done
}

// The number that two bytes write, the more significant one first.
pub fn joined(high: u8, low: u8) -> usize
    ensures { result ≡ high * 256 + low }
{
    usize::from(high) * 256 + usize::from(low)
}

// The length that the next two bytes write, or `None` where the input has no more.
pub fn read_length(input: &mut impl Read) -> Option<usize>
    ensures { IfSome result (λ n. n ≤ 65535) }
{
    let mut two = [0u8; 2];
    if read_full(input, &mut two) < two.len() {
        return None;
    }
    Some(joined(two[0], two[1]))
}
