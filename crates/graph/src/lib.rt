// The class graph: what a class reaches, how deep it stands, and its closure (document 01: kept sets).
// Stores are plain slices and Readable a clause: depth_of, is_fresh and demands_differ, which docs name, are lent those by the keeper.
#![tactic(auto)]

pub mod closure;
pub mod collect;
pub mod demand;
pub mod depth;
pub mod reach;
pub mod rewrite;
pub mod stages;
pub mod visited;
