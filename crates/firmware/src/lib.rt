//! The calls that C makes, over memory that it lends.
//!
//! In come a rule place, a run place, a names book and buffers, all of which whoever calls keeps; out come replies and reports,
//! plain structs of numbers. C has no moved types: so a run place knows whether a run is open in it, and a call that
//! does not fit is refused like any other. What takes pointers, in `firmware_c`, is thin over the functions here.
//!
//! Proved, for all input: each call replies and leaves what the call of the library replies and leaves, or refuses what
//! does not fit and leaves all as it was.
#![tactic(auto)]

pub mod accepting;
pub mod compiling;
pub mod explaining;
pub mod fault;
pub mod reply;
pub mod report;
pub mod run_place;
pub mod running;
pub mod trying;

pub use fault::CallFault;
pub use reply::Reply;
pub use report::Told;
pub use run_place::RunPlace;
pub use trying::Trial;
