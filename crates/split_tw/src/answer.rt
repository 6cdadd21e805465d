// What a cut comes to.

// How many calls are served, runs made and calls dropped, the cost and the distance.
#[derive(Clone, Copy)]
pub struct SplitResult {
    pub served: usize,
    pub runs: usize,
    pub dropped: usize,
    pub cost: f64,
    pub distance: f64,
}
