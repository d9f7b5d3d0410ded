//! What the laws of soundness say, and that runs on values follow checked free runs (theory for `soundness`).
#![tactic(auto)]
