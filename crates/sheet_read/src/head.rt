// The head of a sheet: places, capacity, fixed run cost, limits and break.
ghost use Rattle.std.specs.Prelude.{◌≡◌, option_map};
ghost use Rattle.whole.specs.Whole.{fl};
ghost use Rattle.definitions.specs.Words.{words_of};
ghost use Rattle.definitions.specs.Reader.{values_of, break_of, sheet_of};
ghost use Rattle.models.specs.Records.{rest_of, head_of};
ghost use Rattle.models.specs.Image.{fl_break, fl_sheet};

use crate::customers::load_from;
use crate::values::{find, first_value, number_at, or_zero};
use models::head::Head;
use models::limits::RouteLimits;
use models::vehicle::VehicleBreak;
use sheet_words::word_count;

pub fn limit_of(v: Option<u32>) -> Option<f64>
    ensures { result ≡ option_map fl v }
{
    match v {
        None => None,
        Some(n) => Some(n as f64),
    }
}

// The break, from the first three words of its kind.
pub fn rest_of(bytes: &[u8]) -> Option<VehicleBreak>
    ensures { rest_of result ≡ option_map fl_break (break_of (values_of 6 (words_of bytes.now))) }
{
    let count = word_count(bytes);
    let earliest = find(bytes, 6, 0);
    if count <= earliest {
        return None;
    }
    let latest = find(bytes, 6, earliest + 1);
    if count <= latest {
        return None;
    }
    let duration = find(bytes, 6, latest + 1);
    if count <= duration {
        return None;
    }
    Some(VehicleBreak {
        earliest: number_at(bytes, earliest),
        latest: number_at(bytes, latest),
        duration: number_at(bytes, duration),
    })
}

// The head that accepted words say.
pub fn head_of(bytes: &[u8]) -> Head
    ensures { head_of result ≡ (fl_sheet (sheet_of (words_of bytes.now))).head }
{
    let places = or_zero(first_value(bytes, 1)) as usize;
    let seats = or_zero(first_value(bytes, 2));
    let capacity = load_from(bytes, seats, 0);
    let fixed_cost = or_zero(first_value(bytes, 3)) as f64;
    let max_distance = limit_of(first_value(bytes, 4));
    let max_duration = limit_of(first_value(bytes, 5));
    let rest = rest_of(bytes);
    let limits = RouteLimits {
        max_distance,
        max_duration,
        rest,
    };
    Head {
        places,
        capacity,
        fixed_cost,
        limits,
    }
}
