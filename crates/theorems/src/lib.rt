// What is proved of the definitions, for every sheet: demand 3 and the laws behind it; see proofs/. No functions.
