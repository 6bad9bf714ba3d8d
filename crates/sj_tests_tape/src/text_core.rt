//! Scalars, kinds and faults.

mod comparisons;
mod faults;
mod parts;
mod reads;
