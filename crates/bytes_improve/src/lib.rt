// The improvers on the sheet that bytes are.
#![tactic(auto)]

pub mod improve;
