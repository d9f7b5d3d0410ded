//! The rules of the lowering, in `specs/`: where the code of a typed program stands in a graph, the graph of a program
//! as a function on trees, and the site in the text of each of its lines. The laws are the clauses of functions without
//! parameters.
#![tactic(auto)]

mod code_laws;
mod laws;
mod site;

pub use code_laws::law_of_code;
pub use laws::law_of_lowering;
pub use site::Site;
