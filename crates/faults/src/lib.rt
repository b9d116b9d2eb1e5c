// What is wrong with the bytes (`marks`, `commas`) and the figures (`figures`) of a line of a day file, in plain words for whoever wrote it, with what to
// write instead. Each `first_fault` finds what is wrong first, or nothing; that is displayed behind the line's number, the place in the
// line first, on a page (`page`). Proved safe and to end; what is said is tried by the program `texts`.
#![tactic(auto)]

mod commas;
pub mod figures;
pub mod marks;
pub mod page;
