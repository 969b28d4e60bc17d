//! What trace folders hold.
mod files;
mod samples;
mod telling;
mod times;
mod tracks;
