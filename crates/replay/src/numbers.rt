// Numbers that bytes make, the lowest first, and parts of slices.
ghost use Rattle.std.specs.Prelude.{◌+◌, ◌≡◌, ◌≤◌, length, take, drop};

// The number of two bytes.
pub(crate) fn short_at(s: &[u8], at: usize) -> u16
    requires { at + 2 ≤ length s.now }
{
    u16::from_le_bytes([s[at], s[at + 1]])
}

// The number of four bytes. The crate `standard` has the same for its table, for itself alone.
pub(crate) fn number_at(s: &[u8], at: usize) -> u32
    requires { at + 4 ≤ length s.now }
{
    u32::from_le_bytes([s[at], s[at + 1], s[at + 2], s[at + 3]])
}

// The first elements, so many or all where there are no more, and the others.
pub(crate) fn split_within<T>(s: &[T], count: usize) -> (&[T], &[T])
    ensures front { result.0.now ≡ take count s.now }
    ensures back { result.1.now ≡ drop count s.now }
{
    s.split_at(count.min(s.len()))
}
