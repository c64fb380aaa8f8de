//! The top call, which is all that the program does: words, scene, job, and the notes of a fault.
#![tactic(auto)]

mod jobs;
mod notes;
mod run_fault;
mod scene_bytes;
mod status;
mod top_call;

pub use notes::note_fault;
pub use run_fault::RunFault;
pub use status::Status;
pub use top_call::run;
