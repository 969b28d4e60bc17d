//! What trace folders of ours hold, whoever wrote them, as `specview folder` needs it: summed up, checked by the definition of what their
//! bytes say, mended where a stopped writer left something behind, merged by time. What they have is judged by functions over bytes, whose
//! contracts say what an answer means; reading the files and printing is promised nothing of.
//!
//! | File | What is in it |
//! |---|---|
//! | `fault.rt`, `folder_fault.rt` | why folders are shown no further; why one can't be shown, with its status |
//! | `naming.rt`, `opening.rt` | which file is which CPU's; a folder's metadata and files |
//! | `judging.rt`, `examining.rt` | `wrong_with`, `mend_of`: what is wrong with a file, and where it is cut (`specs/Examined`); the files of folders, one by one |
//! | `counting.rt` | the tables of what folders have |
//! | `merging.rt` | what files tell, in order of time |
//! | `progress.rt` | what is told while files are read |
//! | `proofs/` | Uuids (a value that none of all places has) |
#![tactic(auto)]

mod counting;
mod examining;
mod fault;
mod folder_fault;
mod judging;
mod merging;
mod naming;
mod opening;
mod progress;

pub use counting::count_folders;
pub use examining::examine_folders;
pub use fault::FolderViewFault;
pub use folder_fault::TraceFolderFault;
pub use merging::{
    Merged, OpenedTraces, Source, merge_all, merge_live, metadata_of_all, open_all, put_moment,
};
pub use naming::FileName;
pub use opening::OpenedTrace;
