//! What the definitions say of worked cases, closed by computation.
#![tactic(auto)]
