// Steps of walks by hand, for functions that the borrow checker does not cover; nothing in it is about one crate:
// see proofs/. No functions.
