// Route elimination (local_search/route_elimination.rs): a run goes when the others take its calls for less than it
// costs.
#![tactic(auto)]

pub mod placing;
pub mod route_elimination;
