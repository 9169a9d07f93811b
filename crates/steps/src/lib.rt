// Step systems: the interface that terms, nets and the layers over them stand behind, and that the
// bench is written against.
// It rests on `byte_strings`.
#![tactic(auto)]

pub mod answer;
pub mod fault;
pub mod label;
pub mod limits;
pub mod system;

pub use fault::{MaskFault, Refusal, SystemFault};
pub use label::Label;
pub use limits::{STATE_LIMIT, STEP_LIMIT};
pub use system::StepSystem;
