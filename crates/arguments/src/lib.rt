// The numbers that a request's line carries: counts, lengths, lists of long numbers, boxes, depths, visits.
#![tactic(auto)]

pub mod boxes;
pub mod counts;
pub mod depths;
pub mod lengths;
pub mod longs;
pub mod visits;
pub mod words;

pub use boxes::{Told, box_of, told_of};
pub use counts::count_of;
pub use depths::{Deep, deep_of};
pub use lengths::are_lengths;
pub use longs::{list_of, long_number};
pub use visits::{Shown, read_of, shown_of};
