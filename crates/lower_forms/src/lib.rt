//! The code of a body, form by form: effects, scopes, branches, loops and exits, in postfix order (the rustc
//! development guide, "MIR construction").
#![tactic(auto)]

mod arrays;
mod bodies;
mod forms;

pub use arrays::array_around;
pub use bodies::body_code;
pub use forms::node_code;
