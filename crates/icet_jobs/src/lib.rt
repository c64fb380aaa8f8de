//! The jobs of the program: what each does with a scene, and the text that it writes.
#![tactic(auto)]

pub mod compositing;
pub mod drawing;
pub mod imaging;
pub mod net;
pub mod pictures;
pub mod planning;
pub mod replay;
pub mod summary;
pub mod weighing;

pub use compositing::{Outcome, Way, composite};
pub use drawing::draw_images;
pub use imaging::images_of;
pub use net::run_net;
pub use pictures::write_pictures;
pub use planning::plan_of;
pub use replay::{JobFault, write_replay};
pub use summary::write_summary;
pub use weighing::weigh;
