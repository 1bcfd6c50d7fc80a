// The sizes of document 01, "Numbers and sizes". Each stands here once for the code, and in specs/Sizes.antt once for
// the contracts: where the two differ, the crates above are refused.
#![tactic(auto)]

// "one mark is 1/65,536"
pub const MARK: i64 = 65536;
// Unknowns, equations, rows and columns.
pub const N: usize = 6;
// Terms of an equation.
pub const TERMS: usize = 16;
// Bytes of a text.
pub const TEXT: usize = 4096;
// Steps of a run.
pub const STEPS: u64 = 1000;
// The largest job number.
pub const NUMBER: u64 = 999999999;
// The largest visit number.
pub const VISIT: u64 = 999999999;
// A box end, either way.
pub const END: i64 = 262144;
// An end of an image that is handed in, either way: 2 to the power 46.
pub const IMAGE: i64 = 70368744177664;
// A coefficient, a matrix entry, a right side or an entry of the inverse, either way.
pub const ENTRY: i64 = 4194304;
// The total degree of a term.
pub const DEGREE: u64 = 3;
// Halvings of a box, one within the other.
pub const DEPTH: u64 = 8;
// Boxes that so many halvings list at most: two to the power of the depth.
pub const BOXES: usize = 256;
