// The cut of a tour by loads and closed legs alone, as a recorded text says it.
ghost use Rattle.std.specs.Prelude.{◌≡◌, ◌≤◌, [], ◌∷◌, ◌++◌, length};
ghost use Rattle.cut_theory.specs.Tab.{most_cut};
ghost use Rattle.definitions.specs.Listing.{end_of_line};
ghost use Rattle.cut_stops.specs.Stops.{Below64};
ghost use Rattle.split_tw.specs.SplitTw.{split_tw_f};
ghost use Rattle.test_runs.specs.Along.{follows};
ghost use Rattle.test_runs.specs.Words as Words;
ghost use Rattle.test_runs.specs.Runs.{given_in};
ghost use Rattle.test_lists.specs.Answers as Answers;
ghost use Rattle.test_lists.specs.Answers.{bare, cut_words};

use cut_table::cells::MOST_CUT;
use sheet_loaded::load::Loaded;
use split::split::split;
use split_tw::answer::SplitResult;
use test_runs::recorded::{calls, figure, word};

// A word, and the numbers of a list.
fn list_line(recorded: &[u8], at: usize, first: &[u8], list: &[usize]) -> usize
    ensures { let words = first.now ∷ Words.numbers list.now ++ (end_of_line ∷ []) in
        result ≡ follows recorded.now at words }
{
    let end = word(recorded, at, first);
    calls(recorded, end, list)
}

// The cost and the distance.
fn total_line(recorded: &[u8], at: usize, cut: SplitResult) -> usize
    ensures { let figures = Words.figure cut.cost ∷ Words.figure cut.distance ∷ [] in
        result ≡ follows recorded.now at (Words.line "split" figures) }
{
    let mut end = word(recorded, at, b"split");
    end = figure(recorded, end, cut.cost);
    end = figure(recorded, end, cut.distance);
    word(recorded, end, b"\n")
}

// The three lists, a line each, and what the cut comes to.
fn cut_lines(
    recorded: &[u8],
    at: usize,
    served: &[usize],
    run_ends: &[usize],
    dropped: &[usize],
    cut: SplitResult,
) -> usize
    ensures { let made = Answers.result served.now run_ends.now dropped.now
        cut.cost cut.distance in
        result ≡ follows recorded.now at (cut_words made) }
{
    let mut end = list_line(recorded, at, b"served", served);
    end = list_line(recorded, end, b"ends", run_ends);
    end = list_line(recorded, end, b"dropped", dropped);
    total_line(recorded, end, cut)
}

// Those of the cut of a tour.
pub fn cut_text(
    recorded: &[u8],
    at: usize,
    tour: &[usize],
    held: Loaded,
    distances: &[f64],
    times: &[f64],
) -> usize
    requires { (length tour.now ≤ most_cut) × Below64 tour.now }
    ensures { let sheet = bare (given_in held distances.now times.now) in
        result ≡ follows recorded.now at (cut_words (split_tw_f sheet tour.now)) }
{
    let head = held.head;
    let customers = held.customers;
    let mut served = [0usize; MOST_CUT];
    let mut run_ends = [0usize; MOST_CUT];
    let mut dropped = [0usize; MOST_CUT];
    let made = split(
        tour,
        customers,
        distances,
        times,
        head.places,
        head.capacity,
        head.fixed_cost,
        &mut served,
        &mut run_ends,
        &mut dropped,
    );
    cut_lines(
        recorded,
        at,
        &served[..made.served],
        &run_ends[..made.runs],
        &dropped[..made.dropped],
        made,
    )
}
