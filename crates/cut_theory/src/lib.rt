// The theory of the cut of a tour into runs, over any costs and any price of a run: see specs/ and proofs/.
// No functions.
