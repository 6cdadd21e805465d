// Where the break of a run goes that has no place named.

#[derive(Clone, Copy)]
pub enum Placement {
    // where the clock puts it: as early home as can be
    Clock,
    // at the call, or at none where excused, with the least lateness pay
    Least,
}
