// The calls that a cutting holds, with their positions in the tour, and lists written at the front
// of lent ones.
ghost use Rattle.std.specs.Prelude.{◌≡◌, ◌+◌, ◌-◌, ◌<◌, ◌≤◌, length, take};
ghost use Rattle.basics.specs.Lists.{without, count};
ghost use Rattle.definitions.specs.Room.{written};
ghost use Rattle.cut_table.specs.Table.{calls, MayDrop, DropCall};

// Takes the element at `at` out of the first n.
pub fn remove(list: &mut [usize], n: usize, at: usize)
    requires { (at < n) × (n ≤ length list.old) }
    ensures { take (n - 1) list.new ≡ without at (take n list.old) }
{
    // One move in the compiled program, which `copy_within` is not.
    for k in at..n - 1 {
        list[k] = list[k + 1];
    }
}

// Drops the call at `at` of the n held: it goes out of the held customers and out of their positions,
// and its position is written after the `gone` that were dropped before.
pub fn drop_call(
    held: &mut [usize],
    positions: &mut [usize],
    n: usize,
    at: usize,
    dropped: &mut [usize],
    gone: usize,
)
    requires { MayDrop n at gone (calls held.old positions.old dropped.old) }
    ensures { let old = calls held.old positions.old dropped.old in
        let new = calls held.new positions.new dropped.new in
        DropCall n at gone old new }
{
    let place = positions[at];
    dropped[gone] = place;
    remove(&mut *held, n, at);
    remove(&mut *positions, n, at);
}

// Writes a list at the front of another.
pub fn write_front(from: &[usize], to: &mut [usize])
    requires { length from.now ≤ length to.old }
    ensures { to.new ≡ written from.now to.old }
{
    to[..from.len()].copy_from_slice(from);
}

// Writes n numbers at the front, counted from `from` on.
pub fn number(to: &mut [usize], from: usize, n: usize)
    requires { (n ≤ length to.old) × (from + n < 0xFFFF_FFFF_FFFF_FFFF) }
    ensures { to.new ≡ written (count from n) to.old }
{
    for (k, number) in to[..n].iter_mut().enumerate() {
        *number = from + k;
    }
}
