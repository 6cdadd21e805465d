// The calls too heavy alone: no run may have one, so they leave before the first row is filled, where they would each
// be dropped in their turn and end every row before them. The answer is the same.
ghost use Rattle.std.specs.Prelude.{◌≡◌, ◌<◌, ◌≤◌, length, get_or, take, eqb};
ghost use Rattle.basics.specs.Lists.{only};
ghost use Rattle.cut_theory.specs.Tab.{most_cut};
ghost use Rattle.definitions.specs.Room.{written};
ghost use Rattle.models.specs.Load.{space_of};
ghost use Rattle.cut_stops.specs.Stops.{numbers, Long, Below64};
ghost use Rattle.cut_table.specs.Table.{table};
ghost use Rattle.cut_drops.specs.Refill.{given, SomeLists, Unfilled, Holds};
ghost use Rattle.cut_heavy.specs.Heavy.{fits_alone, spread};

use cut_drops::hold::hold;
use cut_runs::terms::Terms;
use cut_stops::stops::customer_at;
use cut_table::cells::{CELLS, MOST_CUT};
use cut_table::held::write_front;
use models::load::Space;

// Whether a vehicle holds what call c alone asks for.
pub fn fits_alone(codes: &[u32], figures: &[f64], capacity: Space, c: usize) -> bool
    requires { Long (numbers codes.now figures.now) × (c < 64) }
    ensures { result ≡ fits_alone (numbers codes.now figures.now) (space_of capacity) c }
{
    let customer = customer_at(codes, figures, c);
    customer.demand.fits(capacity)
}

// Writes the calls that fit alone at the front of a list, and gives how many they are.
pub fn write_light(
    tour: &[usize],
    codes: &[u32],
    figures: &[f64],
    capacity: Space,
    to: &mut [usize],
) -> usize
    requires long { Long (numbers codes.now figures.now) × Below64 tour.now }
    requires tour_in_bounds { length tour.now ≤ length to.old }
    ensures { let fits = fits_alone (numbers codes.now figures.now) (space_of capacity) in
        let light = only fits tour.now in
        (result ≡ length light) × (to.new ≡ written light to.old) }
{
    let mut n = 0;
    for &c in tour {
        if fits_alone(codes, figures, capacity, c) {
            to[n] = c;
            n += 1;
        }
    }
    n
}

// Whether number q is the next of these.
pub fn is_next(numbers: &[usize], a: usize, q: usize) -> bool
    requires { 0 < q }
    ensures { result ≡ eqb (get_or numbers.now a 0) q }
{
    numbers.get(a) == Some(&q)
}

// Writes the positions dropped at the front of a list, in rising order: those of the calls that do not fit alone, and
// of the others those whose numbers among themselves are in `gone`.
pub fn write_dropped(
    tour: &[usize],
    codes: &[u32],
    figures: &[f64],
    capacity: Space,
    gone: &[usize],
    to: &mut [usize],
)
    requires long { Long (numbers codes.now figures.now) × Below64 tour.now }
    requires tour_len_bound { (length tour.now ≤ most_cut) × (length tour.now ≤ length to.old) }
    ensures { let fits = fits_alone (numbers codes.now figures.now) (space_of capacity) in
        let all = spread fits tour.now 1 1 gone.now in
        to.new ≡ written all to.old }
{
    let mut n = 0;
    let mut q = 0;
    let mut a = 0;
    for (k, &c) in tour.iter().enumerate() {
        let position = k + 1;
        if !fits_alone(codes, figures, capacity, c) {
            to[n] = position;
            n += 1;
            continue;
        }
        q += 1;
        if !is_next(gone, a, q) {
            continue;
        }
        to[n] = position;
        n += 1;
        a += 1;
    }
}

// Where the first `gone` places of `dropped` have the numbers dropped of the calls that fit alone, the positions
// dropped of all calls are written there.
pub fn number_in_tour(
    tour: &[usize],
    codes: &[u32],
    figures: &[f64],
    capacity: Space,
    gone: usize,
    dropped: &mut [usize],
)
    requires long { Long (numbers codes.now figures.now) × Below64 tour.now }
    requires tour_len_bound { (length tour.now ≤ most_cut) × (length tour.now ≤ length dropped.old) }
    requires gone_in_bounds { gone ≤ length tour.now }
    ensures { let fits = fits_alone (numbers codes.now figures.now) (space_of capacity) in
        let all = spread fits tour.now 1 1 (take gone dropped.old) in
        dropped.new ≡ written all dropped.old }
{
    let mut among = [0usize; MOST_CUT];
    write_front(&dropped[..gone], &mut among);
    write_dropped(
        tour,
        codes,
        figures,
        capacity,
        &among[..gone],
        &mut *dropped,
    );
}

// Of the calls of a tour those that stay, with the table of their rows. Gives how many; they stand at the front of
// `held`.
pub fn hold_tour(
    tour: &[usize],
    held: &mut [usize],
    dropped: &mut [usize],
    distances: &[f64],
    times: &[f64],
    size: usize,
    codes: &[u32],
    figures: &[f64],
    terms: Terms,
    cost: &mut [f64; CELLS],
    dist: &mut [f64; CELLS],
    pred: &mut [usize; CELLS],
) -> usize
    requires tour_len_bound { (length tour.now ≤ most_cut) × Below64 tour.now × Long (numbers codes.now figures.now) }
    requires tour_in_bounds { (length tour.now ≤ length held.old) × (length tour.now ≤ length dropped.old) }
    requires unfilled { Unfilled (table cost.old dist.old pred.old) }
    requires fact { let E = given distances.now times.now size codes.now figures.now terms in
        SomeLists E tour.now }
    ensures fact_2 { let E = given distances.now times.now size
        codes.now figures.now terms in
        let t = table cost.new dist.new pred.new in
        Holds E tour.now dropped.old result held.new dropped.new t }
    ensures upper_bound { result ≤ length tour.now }
{
    let m = write_light(tour, codes, figures, terms.capacity, &mut *held);
    let n = hold(
        &mut *held,
        m,
        &mut *dropped,
        distances,
        times,
        size,
        codes,
        figures,
        terms,
        &mut *cost,
        &mut *dist,
        &mut *pred,
    );
    if m == tour.len() {
        return n;
    }
    number_in_tour(tour, codes, figures, terms.capacity, m - n, &mut *dropped);
    n
}
