//! What an answer says.

use dspec_deeds::{Answer, CpuOp, Decided, Opening, Spoken, Traced};
use dspec_record::Rec;
use dspec_word::SpecId;

/// The record that a call offers.
pub fn record_in(op: CpuOp) -> Option<Rec> {
    match op {
        CpuOp::Trace(rec) | CpuOp::Speculate(_, rec) => Some(rec),
        _ => None,
    }
}

/// The identifier that a call speculates to or decides.
pub fn identifier_in(op: CpuOp) -> Option<SpecId> {
    match op {
        CpuOp::Speculate(id, _) | CpuOp::Commit(id) | CpuOp::Discard(id) => Some(id),
        _ => None,
    }
}

/// Whether the answer is that the record was kept.
pub fn is_kept(answer: Answer) -> bool {
    matches!(
        answer,
        Answer::Traced(Traced::Kept) | Answer::Spoken(Spoken::Kept)
    )
}

/// Whether the answer is that the session was stopped.
pub fn is_stopped(answer: Answer) -> bool {
    matches!(
        answer,
        Answer::Traced(Traced::Stopped)
            | Answer::Opening(Opening::Stopped)
            | Answer::Spoken(Spoken::Stopped)
            | Answer::Decided(Decided::Stopped)
    )
}

/// Whether the answer is that the CPU had made all its calls.
pub fn is_worn(answer: Answer) -> bool {
    matches!(
        answer,
        Answer::Traced(Traced::Worn)
            | Answer::Opening(Opening::Worn)
            | Answer::Spoken(Spoken::Worn)
            | Answer::Decided(Decided::Worn)
    )
}

/// Whether the answer is that the identifier isn't open.
pub fn is_void(answer: Answer) -> bool {
    matches!(
        answer,
        Answer::Spoken(Spoken::Void) | Answer::Decided(Decided::Void)
    )
}

/// Whether the answer is that the record was kept or dropped in a speculation, so that the CPU is a caller of it.
pub fn is_granted(answer: Answer) -> bool {
    matches!(
        answer,
        Answer::Spoken(Spoken::Kept) | Answer::Spoken(Spoken::Dropped)
    )
}

/// Of the call that decided, whether it is a commit, and the size of its block.
pub fn decision_in(answer: Answer) -> Option<(bool, u32)> {
    match answer {
        Answer::Decided(Decided::Copied(size)) | Answer::Decided(Decided::Lost(size)) => {
            Some((true, size))
        }
        Answer::Decided(Decided::Thrown(size)) => Some((false, size)),
        _ => None,
    }
}

/// Whether the answer is that the principal buffer had no room.
pub fn is_refused(answer: Answer) -> bool {
    matches!(
        answer,
        Answer::Traced(Traced::Dropped) | Answer::Decided(Decided::Lost(_))
    )
}
