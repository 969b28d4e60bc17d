//! What a caller wrote of a CPU's packets is read back: the law above the calls that hand packets out (`dspec_ctf`) and the reading
//! (`dspec_ctf_reading`), for programs that write the files of a trace by time themselves.
//!
//! | File | What is in it |
//! |---|---|
//! | `laws.rt` | the law, as the clause of a function that has nothing to do |
//! | `specs/`: Sessions | calls on a CPU's files one after another, what each did, and which packets count as written |
//! | `specs/`: Reading, Laws | what is read of written packets: which records are kept, in which files, and what is told and counted; the law |
//! | `proofs/`: Sharing, Growing, FilesLaws | records that go to files; what is written after a file; the laws on which this stands |
//! | `proofs/`: Fronts, Packets | first records of texts, and parts of them; a run's packet, or what was missed, after packets |
//! | `proofs/`: Standing, Calling, Folding | what is known of files between two calls, after one call, and after all of them |
#![tactic(auto)]

pub mod laws;
