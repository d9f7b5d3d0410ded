//! The frame of soundness: what a node leaves as it was (theory for `soundness` and `lower_ready`).
#![tactic(auto)]
