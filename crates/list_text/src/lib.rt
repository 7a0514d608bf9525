// The listing: a sheet's classes as lines of text, or the one line for a sheet that is refused or too long.
#![tactic(auto)]

mod class;
pub mod list;
mod text;
