//! The session that encodes a body in pieces.
mod carry;
mod decided;
mod flush;
mod partial;
pub mod pieces;
pub mod session;
