// What a recheck does with the new function's text before it is typed.
#![tactic(auto)]

pub mod alone;
