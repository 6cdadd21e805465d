// Small words on tests, answers that may be none, and lists, with their laws: see specs/ and proofs/.
// No functions.
