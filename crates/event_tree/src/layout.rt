//! How a tree is kept and looked at, for all ways to read, write and change it:
//!
//! - `entries`: the list that a tree is kept as, an entry for each node and leaf.
//! - `view`: a look at a part of a tree, one level at a time.
//! - `adjacent`: a look at several parts that stand one after the other.
//! - `node_entry`: how the first entries of a node are written, once both halves stand behind it.
//! - `in_place`: how a tree is written into a slice that has room for it.

pub mod adjacent;
pub mod entries;
pub mod in_place;
pub mod node_entry;
pub mod view;
