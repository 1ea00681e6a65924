//! The examples of the pages.

mod callers;
mod client;
mod embedding;
mod link;
mod readme;
mod wire;
