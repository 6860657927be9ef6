// Sums that depend on each number and on their order.
ghost use Rattle.std.specs.Prelude.{◌≡◌, ◌≤◌, length, take};

#[derive(Clone, Copy, Default)]
pub(crate) struct Sum(pub u32);

impl Sum {
    // With one number more.
    pub(crate) fn number(self, number: u32) -> Sum {
        Sum(self.0.wrapping_mul(65599).wrapping_add(number))
    }

    pub(crate) fn numbers(self, numbers: &[u32]) -> Sum {
        numbers.iter().fold(self, |sum, number| sum.number(*number))
    }

    pub(crate) fn bytes(self, bytes: &[u8]) -> Sum {
        bytes
            .iter()
            .fold(self, |sum, byte| sum.number(u32::from(*byte)))
    }

    // With all bytes but for the zeros at the end, and with the count of those.
    pub(crate) fn trimmed(self, bytes: &[u8]) -> Sum {
        let bytes = trimmed(bytes);
        self.number(low(bytes.len())).bytes(bytes)
    }
}

// The low half of a number.
pub(crate) fn low(number: usize) -> u32 {
    (number % 0x1_0000_0000) as u32
}

// The bytes before the zeros at the end.
pub(crate) fn trimmed(bytes: &[u8]) -> &[u8]
    ensures bound { length result.now ≤ length bytes.now }
    ensures front { result.now ≡ take (length result.now) bytes.now }
{
    match bytes.iter().rposition(|byte| *byte != 0) {
        Some(last) => &bytes[..=last],
        None => &[],
    }
}
