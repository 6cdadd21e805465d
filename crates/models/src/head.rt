// What a sheet has besides its customers and legs.
use crate::limits::RouteLimits;
use crate::load::Space;

#[derive(Clone, Copy)]
pub struct Head {
    // The depot counts.
    pub places: usize,
    pub capacity: Space,
    pub fixed_cost: f64,
    // The limits and the break.
    pub limits: RouteLimits,
}
