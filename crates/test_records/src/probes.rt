//! Typed probes: how they are declared, and what records of them stand for.
mod declaring;
mod numbers;
mod reading;
mod telling;
mod text_fields;
