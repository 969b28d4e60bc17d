//! Records of probes on lanes and paths.
mod bytes;
mod foreign;
mod sessions;
mod steps;
