// Rooms for the numbers of errors: of words, or of bytes, four a number with the lowest first.
ghost use Rattle.std.specs.Prelude.{◌≤◌, ◌<◌, ◌+◌, ◌*◌, ℕ, List, length};
ghost use Rattle.lists.specs.Bytes.{plainly, fours};
ghost use Rattle.lists.specs.Layings.{Laying};
ghost use Rattle.lists.specs.Rooms.{Put};
ghost use Rattle.lists.proofs.Layings.{laid-plainly, laid-fours};
ghost use Rattle.std.proofs.Common.{rules};

// What a room is of, into which numbers are laid.
pub(crate) trait Laid: Copy {
    // How numbers are laid, and how many of these each takes.
    ghost lay: { List ℕ → List Self };

    ghost EACH: { ℕ };

    const EACH: usize;

    // Lays numbers into a room that has place for them, from `at` on, and answers the place after them; all else stays.
    fn put(numbers: &[u32], room: &mut [Self], at: usize) -> usize
        requires { at + EACH * length numbers.now ≤ length room.old }
        ensures { Put room.old at (lay numbers.now) room.new result };

    ghost some: { 0 < EACH };

    ghost laying: { Laying EACH lay };
}

impl Laid for u32 {
    ghost lay = { plainly };

    ghost EACH = { 1 };

    const EACH: usize = 1;

    ghost some = { Prim.search rules };

    ghost laying = { laid-plainly };

    // By a `for`, and no `copy_from_slice`, as in `rooms`.
    fn put(numbers: &[u32], room: &mut [u32], at: usize) -> usize {
        let mut next = at;
        for number in numbers {
            room[next] = *number;
            next += 1;
        }
        next
    }
}

impl Laid for u8 {
    ghost lay = { fours };

    ghost EACH = { 4 };

    const EACH: usize = 4;

    ghost some = { Prim.search rules };

    ghost laying = { laid-fours };

    fn put(numbers: &[u32], room: &mut [u8], at: usize) -> usize {
        rooms::put_numbers(numbers, room, at)
    }
}
