// A run list in two lent lists of 128: the calls of all runs, run after run, and for each run the number of calls up to
// its end. How many calls and runs there are is told beside them.
ghost use Rattle.std.specs.Prelude.{◌≡◌, cond, ◌++◌, map, ℕ, ◌+◌, ◌-◌, ◌<◌, ◌≤◌, ltb, length, get_or, take, drop};
ghost use Rattle.improve_runs.specs.RunLists.{room, shifted, Front, Sound, runs, runs_in, run_at, insert_at, Rise, Puts, TakesOut, Measures, DropsEmpty, Copies};

use evaluation::route::place_before;

// Copies a list into another one, from `at` on.
pub fn paste(to: &mut [usize], at: usize, from: &[usize])
    requires { (length to.old ≡ room) × (at + length from.now ≤ room) }
    ensures { Front (take at to.old ++ from.now) to.new }
{
    to[at..at + from.len()].copy_from_slice(from);
}

// The same with run ends, each moved down by so much.
pub fn paste_moved(to: &mut [usize], at: usize, from: &[usize], down: usize)
    requires to_len { (length to.old ≡ room) × (at + length from.now ≤ room) }
    requires by_index { (k : ℕ) → k < length from.now → down ≤ get_or from.now k 0 }
    ensures { Front (take at to.old ++ map (shifted 0 down) from.now) to.new }
{
    for (k, end) in from.iter().enumerate() {
        to[at + k] = *end - down;
    }
}

// Puts c before element number `at` of the first n, those behind it one place on.
pub fn put_before(list: &mut [usize], n: usize, at: usize, c: usize)
    requires { (length list.old ≡ room) × (at ≤ n) × (n < room) }
    ensures { Front (insert_at at c (take n list.old)) list.new }
{
    list.copy_within(at..n, at + 1);
    list[at] = c;
}

// Moves the run ends from number k on up by one.
pub fn raise(ends: &mut [usize], k: usize, count: usize)
    requires ends_len { (length ends.old ≡ room) × (k ≤ count) × (count ≤ room) }
    requires by_index { (j : ℕ) → j < count → get_or ends.old j 0 ≤ room }
    ensures { let old = ends.old in
        Front (take k old ++ map (shifted 1 0) (take (count - k) (drop k old))) ends.new }
{
    for end in &mut ends[k..count] {
        *end += 1;
    }
}

// Puts customer c into run k, before its call number pos.
pub fn insert(
    calls: &mut [usize],
    ends: &mut [usize],
    many: usize,
    count: usize,
    k: usize,
    pos: usize,
    c: usize,
)
    requires { let old = runs calls.old ends.old many count in
        Sound old × (k < count) × (pos ≤ length (run_at (runs_in old) k)) × (many < room) }
    ensures { let old = runs calls.old ends.old many count in
        Puts k pos c old (runs calls.new ends.new (many + 1) count) }
{
    let at = place_before(ends, k) + pos;
    put_before(&mut *calls, many, at, c);
    raise(&mut *ends, k, count);
}

// Writes the runs without run r into two other lists. Gives how many calls they have.
pub fn without_run(
    calls: &[usize],
    ends: &[usize],
    many: usize,
    count: usize,
    r: usize,
    rest_calls: &mut [usize],
    rest_ends: &mut [usize],
) -> usize
    requires sound { Sound (runs calls.now ends.now many count) × (r < count) }
    requires rest_calls_len { (length rest_calls.old ≡ room) × (length rest_ends.old ≡ room) }
    ensures { let old = runs calls.now ends.now many count in
        TakesOut r old (runs rest_calls.new rest_ends.new result (count - 1)) }
{
    let from = place_before(ends, r);
    let to = ends[r];
    paste(&mut *rest_calls, 0, &calls[..from]);
    paste(&mut *rest_calls, from, &calls[to..many]);
    paste(&mut *rest_ends, 0, &ends[..r]);
    paste_moved(&mut *rest_ends, r, &ends[r + 1..count], to - from);
    many - (to - from)
}

// How many calls each run has.
pub fn lengths_of(ends: &[usize], count: usize) -> [usize; 128]
    requires { (length ends.now ≡ room) × (count ≤ room) × Rise ends.now count }
    ensures { Measures ends.now count result }
{
    let mut lengths = [0usize; 128];
    let mut prev = 0;
    for (k, end) in ends[..count].iter().enumerate() {
        lengths[k] = *end - prev;
        prev = *end;
    }
    lengths
}

// One more where the end has moved on.
pub fn counted(n: usize, prev: usize, end: usize) -> usize
    requires { n < 128 }
    ensures { result ≡ cond (ltb prev end) (n + 1) n }
{
    if prev < end { n + 1 } else { n }
}

// Writes the ends of those runs that are not empty into another list. Gives how many there are.
pub fn non_empty(ends: &[usize], count: usize, kept: &mut [usize]) -> usize
    requires { (length ends.now ≡ room) × (count ≤ room) × (length kept.old ≡ room) }
    ensures { DropsEmpty ends.now count kept.new result }
{
    let mut n = 0;
    let mut prev = 0;
    for end in &ends[..count] {
        kept[n] = *end;
        n = counted(n, prev, *end);
        prev = *end;
    }
    n
}

// The same in place.
pub fn drop_empty(ends: &mut [usize], count: usize) -> usize
    requires { (length ends.old ≡ room) × (count ≤ room) }
    ensures { DropsEmpty ends.old count ends.new result }
{
    let mut kept = [0usize; 128];
    let n = non_empty(ends, count, &mut kept);
    paste(&mut *ends, 0, &kept);
    n
}

// Copies a run list into another one.
pub fn take_over(
    calls: &mut [usize],
    ends: &mut [usize],
    new_calls: &[usize],
    new_ends: &[usize],
    many: usize,
    count: usize,
)
    requires calls_len { (length calls.old ≡ room) × (length ends.old ≡ room) }
    requires sound { Sound (runs new_calls.now new_ends.now many count) }
    ensures { let new = runs new_calls.now new_ends.now many count in
        Copies new (runs calls.new ends.new many count) }
{
    paste(&mut *calls, 0, &new_calls[..many]);
    paste(&mut *ends, 0, &new_ends[..count]);
}
