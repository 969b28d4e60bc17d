//! Batches on rings. They are told apart by a number of the tests' own, which stands in their drops and in the one record of
//! their buffer. `moves` plays the ends on one thread, `crossing` on two. What is compared is worked out by hand.
mod batches;
mod crossing;
mod moves;
