// Numbers that are lent: as words, or as bytes, four a number, the lowest first.
ghost use Rattle.std.specs.Prelude.{◌≡◌, ◌<◌, ℕ, List, length, get_or};
ghost use Rattle.lists.specs.Bytes.{words};

pub(crate) trait Numbers: Copy {
    // The numbers.
    ghost list: { Self → List ℕ };

    // How many there are.
    fn count(self) -> usize
        ensures { result ≡ length (list self) };

    // The number at a place.
    fn number_at(self, at: usize) -> u32
        requires { at < length (list self) }
        ensures { result ≡ get_or (list self) at 0 };
}

impl Numbers for &[u32] {
    ghost list = { λ s. s.now };

    fn count(self) -> usize {
        self.len()
    }

    fn number_at(self, at: usize) -> u32 {
        self[at]
    }
}

#[tactic(auto, using(crate::proofs::Meetings::words_length, crate::proofs::Meetings::words_read))]
impl Numbers for &[u8] {
    ghost list = { λ s. words s.now };

    fn count(self) -> usize {
        self.len() / 4
    }

    fn number_at(self, at: usize) -> u32 {
        let four = &self[4 * at..4 * at + 4];
        u32::from_le_bytes([four[0], four[1], four[2], four[3]])
    }
}
