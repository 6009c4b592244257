//! Serving a portal: scripts of calls with the transcripts of their replies, and HTTP connections.
#![tactic(auto)]

mod calling;
pub mod calls;
pub mod defaults;
pub mod desk;
pub mod laws;
mod line;
pub mod play;
pub mod round;
pub mod script;
pub mod serve;
pub mod stage;
