//! Bodies with exact drops (the rustc development guide, "Drop elaboration").
#![tactic(auto)]

mod body;
mod counted;
mod counts;
mod laid;
mod locals;
mod planned;
mod ranked;

pub use body::{PlannedBody, elaborate_body, plan_body};
pub use counts::DropCounts;
pub use locals::bool_of;
