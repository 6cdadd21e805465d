// The customers that accepted words say.
ghost use Rattle.std.specs.Prelude.{suc, ◌<◌, ◌≡◌, map, length, drop, get_or, option_map};
ghost use Rattle.whole.specs.Whole.{fl};
ghost use Rattle.definitions.specs.Words.{words_of};
ghost use Rattle.definitions.specs.Reader as Reader;
ghost use Rattle.definitions.specs.Reader.{values_of, first_of, own, sheet_of};
ghost use Rattle.definitions.specs.Room.{written};
ghost use Rattle.models.specs.Load.{space_of};
ghost use Rattle.models.specs.Records.{opening_of, customer_of};
ghost use Rattle.models.specs.Image.{fl_window, fl_customer};
ghost use Rattle.sheet_words.specs.Held.{no_word};
ghost use Rattle.sheet_read.specs.Parts as Parts;
ghost use Rattle.sheet_read.specs.Parts.{window_from};
ghost use Rattle.sheet_read.specs.Fitting.{fitting};

use crate::values::or_zero;
use models::customer::{Customer, TimeWindow, depots};
use models::load::Space;
use sheet_words::{word_at, word_count};

// The first value of that kind from `from` on and before the next customer.
pub fn own_value(bytes: &[u8], kind: u32, from: usize) -> Option<u32>
    ensures { result ≡ first_of (values_of kind (own (drop from (words_of bytes.now)))) }
{
    for i in from..word_count(bytes) {
        let w = word_at(bytes, i);
        if w.kind == 7 {
            return None;
        }
        if w.kind == kind {
            return Some(w.value);
        }
    }
    None
}

// So many seats, and the second capacity or demand among the words from `from` on and before the next customer.
pub fn load_from(bytes: &[u8], seats: u32, from: usize) -> Space
    ensures { space_of result ≡ Reader.load_of seats (drop from (words_of bytes.now)) }
{
    let wheelchairs = or_zero(own_value(bytes, 0, from));
    Space { seats, wheelchairs }
}

// A window needs both its ends.
pub fn opening_of(ready: Option<u32>, due: Option<u32>) -> Option<TimeWindow>
    ensures { opening_of result ≡ option_map fl_window (window_from ready due) }
{
    match ready {
        None => None,
        Some(from) => match due {
            None => None,
            Some(to) => Some(TimeWindow {
                ready: from as f64,
                due: to as f64,
            }),
        },
    }
}

pub fn penalty_of(v: Option<u32>) -> Option<f64>
    ensures { result ≡ option_map fl v }
{
    match v {
        None => None,
        Some(n) => Some(n as f64),
    }
}

// The customer whose demand is the word of index i.
pub fn customer_at(bytes: &[u8], i: usize) -> Customer
    requires { i < length (words_of bytes.now) }
    ensures { let ws = words_of bytes.now in
        customer_of result ≡ fl_customer (Reader.customer_of (get_or ws i no_word).value (own (drop (suc i) ws))) }
{
    let w = word_at(bytes, i);
    let from = i + 1;
    let demand = load_from(bytes, w.value, from);
    let service_duration = or_zero(own_value(bytes, 8, from)) as f64;
    let ready = own_value(bytes, 9, from);
    let due = own_value(bytes, 0xA, from);
    let time_window = opening_of(ready, due);
    let lateness_penalty = penalty_of(own_value(bytes, 0xB, from));
    Customer {
        demand,
        service_duration,
        time_window,
        lateness_penalty,
    }
}

// The depot's record, then the customers, as many as there is room for, and depots behind them.
pub fn customers_of(bytes: &[u8]) -> [Customer; 64]
    ensures { let all = map fl_customer (sheet_of (words_of bytes.now)).customers in
        map customer_of result ≡ written (fitting all Parts.depots) Parts.depots }
{
    let mut all = depots();
    let mut n = 1;
    for i in 0..word_count(bytes) {
        let w = word_at(bytes, i);
        if w.kind != 7 {
            continue;
        }
        if n == 64 {
            return all;
        }
        all[n] = customer_at(bytes, i);
        n += 1;
    }
    all
}
