//! Command lines of programs, and how a fault is told.
mod asking;
mod telling;
