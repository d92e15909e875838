// What the calls of the tree test before they change anything, and the mark that they leave on a node.
#![tactic(auto)]

pub mod marks; // a mark on a node, changed in both
pub mod need; // whether a commit is needed
pub mod nodes; // sound, live, parent live
pub mod requests; // the verdict of every request
