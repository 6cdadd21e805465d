// What the numbers of a sheet may be.
ghost use Rattle.std.specs.Prelude.{◌≡◌};
ghost use Rattle.definitions.specs.Domain.{is_places, is_capacity, is_demand, is_penalty, is_number, is_closed, is_leg, is_call};

pub const MOST_NUMBER: u32 = 10_000_000;

pub const MOST_PENALTY: u32 = 1_000;

// Of a tour or a run list; and the most run ends.
pub const MOST_CALLS: usize = 128;

// From 1 to 64 places, the depot among them.
pub fn is_places(n: usize) -> bool
    ensures { result ≡ is_places n }
{
    1 <= n && n <= 64
}

pub fn is_capacity(n: u32) -> bool
    ensures { result ≡ is_capacity n }
{
    n <= 1_000_000
}

pub fn is_demand(n: u32) -> bool
    ensures { result ≡ is_demand n }
{
    n <= 32_767
}

// A lateness penalty.
pub fn is_penalty(n: u32) -> bool
    ensures { result ≡ is_penalty n }
{
    n <= MOST_PENALTY
}

// Every distance, time, service, window end, break number, limit and fixed run cost.
pub fn is_number(n: u32) -> bool
    ensures { result ≡ is_number n }
{
    n <= MOST_NUMBER
}

// What a leg table holds for a leg without a road.
pub const NO_ROAD: u32 = 0xFFF_FFFF;

// A leg without a road is closed.
pub fn is_closed(n: u32) -> bool
    ensures { result ≡ is_closed n }
{
    n == NO_ROAD
}

// Of a leg table.
pub fn is_leg(n: u32) -> bool
    ensures { result ≡ is_leg n }
{
    is_number(n) || is_closed(n)
}

// A call's customer, on a sheet with that many places.
pub fn is_call(places: usize, c: usize) -> bool
    ensures { result ≡ is_call places c }
{
    1 <= c && c < places
}
