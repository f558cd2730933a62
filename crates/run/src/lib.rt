//! A run of an accepted rule: started, granted steps, asked, rewound, and closed.
//!
//!     let mut run = Run::start(rule, store);      // takes both; all readings are 0
//!     run.rewind(&[80, -3])?;                     // begins anew, with these readings
//!     run.grant(500)?;                            // so many steps, or as many as there are
//!     let report = run.ask();                     // the count and the state, an answer among them
//!     let Closed { rule, store } = run.close();   // gives both back; the run is gone
//!
//! A rule that was not accepted cannot be started, and a run that was closed cannot be granted anything: the types say so.
//!
//! Proved: over every store with an empty base list, a run is at the stage that its allowed grants add up to, is short of
//! room exactly where that is reckoned on plain lists, and leaves the store with the lists and the room so reckoned.
#![tactic(auto)]

mod calls;
pub mod fault;
pub mod report;

pub use calls::{Closed, Run};
pub use fault::RunFault;
pub use report::{Found, Report, State};
