//! The pass of soundness on cells: what stands in each local of a body while it runs (theory for `soundness`).
#![tactic(auto)]
