//! What versions of small tables answer, against what the definitions say of the tables.
mod asked;
mod large;
mod noisy;
mod rows;
