//! Changes of the small tree, by the slots and objects that they touch and by the rows that they write.

mod counting;
mod ending;
mod moving;
mod steps;
mod tree;
