//! Tests of the real devices.
mod clock;
mod files;
mod net;
mod nonces;
