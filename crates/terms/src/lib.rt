// CCS terms over numbered definitions as a step system. It rests on `ccs` for the meaning and its
// laws, on `nodes` and `residuals` for the bytes of terms and proofs, and on `byte_strings` and
// `steps`.
#![tactic(auto)]

pub mod body;
pub mod limits;
mod misfit;
mod place;
pub mod system;
pub mod terms;

pub use body::BodyFault;
pub use limits::{BODY_LIMIT, DEFINITION_LIMIT};
pub use terms::Terms;
