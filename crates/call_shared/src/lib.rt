#![tactic(auto)]

// What every checked call has in common: it sees an array in place of the customers lent,
// and by the number that the checks give it is refused or answered. See specs/. No functions.
