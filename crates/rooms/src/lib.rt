// Writing into lent rooms of bytes.
#![tactic(auto)]

ghost use Rattle.std.specs.Prelude.{◌≤◌, ◌+◌, ◌-◌, ◌/◌, length, take};
ghost use Rattle.lists.specs.Bytes.{fours};
ghost use Rattle.lists.specs.Rooms.{Put};

// Writes bytes one by one, and answers the place after them; all else stays.
#[inline(always)]
fn put_bytes(from: &[u8], to: &mut [u8], at: usize) -> usize
    requires { at + length from.now ≤ length to.old }
    ensures { Put to.old at from.now to.new result }
{
    let mut next = at;
    for byte in from {
        to[next] = *byte;
        next += 1;
    }
    next
}

// Copies as many bytes of `from` as fit into `to` from `at` on, and answers the place after them; all else stays. In blocks of 32, each copied out
// first, since the compiler doesn't know that `from` and `to` don't overlap. By no `copy_from_slice`: it becomes a call of memmove, which the archive
// for C would then need. It is inlined, since most runs are shorter than a call.
#[inline(always)]
pub fn copy(from: &[u8], to: &mut [u8], at: usize) -> usize
    ensures { Put to.old at (take (length to.old - at) from.now) to.new result }
{
    if to.len() < at {
        return at;
    }
    let count = (to.len() - at).min(from.len());
    let mut rest = &from[..count];
    let mut next = at;
    while let Some((block, after)) = rest.split_first_chunk::<32>() {
        let block = *block;
        next = put_bytes(&block, to, next);
        rest = after;
    }
    put_bytes(rest, to, next)
}

// Writes as many of the numbers as fit whole into `to` from `at` on, and answers the place after them; all else stays.
pub fn put_numbers(numbers: &[u32], to: &mut [u8], at: usize) -> usize
    ensures { Put to.old at (fours (take ((length to.old - at) / 4) numbers.now)) to.new result }
{
    if to.len() < at {
        return at;
    }
    let count = ((to.len() - at) / 4).min(numbers.len());
    // The place is counted, since std says nothing of what a slice holds after its `chunks_exact_mut`.
    let mut next = at;
    for number in &numbers[..count] {
        to[next..next + 4].copy_from_slice(&number.to_le_bytes());
        next += 4;
    }
    next
}
