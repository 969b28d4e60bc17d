//! What trace folders tell, merged by time, as `specview folder` shows it: as lines, drawn, or by the paths that a tracer kept. No file is
//! read here, and one is written nowhere: standard output, or a text.
//!
//! | File | What is in it |
//! |---|---|
//! | `showing.rt` | how all of it is shown |
//! | `listing.rt`, `chart.rt`, `tracks.rt` | as lines; as Chrome's Trace Event form, a row for each CPU and rows for threads, or a row for each value of a field |
//! | `path_events.rt`, `paths.rt` | what an event is for a path; which records are of which path (`specs/Paths`) |
//! | `path_words.rt`, `spans.rt` | what is told of a path, in words; spans of time |
//! | `path_table.rt` | the table of paths, and one path's records |
//! | `following.rt` | paths as they come, of a folder that is being written (`specs/Following`) |
//! | `path_rows.rt`, `path_nest.rt`, `path_bars.rt` | which path is in which row of its thread; the spans within it; both as bars |
//! | `record_values.rt`, `path_counts.rt`, `path_page.rt`, `page_*.rt` | the page: values as JSON, the counts of its head, its data without markup (`specs/Pages`), its style and script |
//! | `path_trace_id.rt`, `path_otlp.rt` | the numbers of spans; a line for each path, as a collector of OpenTelemetry reads it |
#![tactic(auto)]

mod chart;
mod following;
mod listing;
mod page_escape;
mod page_script;
mod page_style;
mod page_text;
mod path_bars;
mod path_counts;
mod path_events;
mod path_nest;
mod path_otlp;
mod path_page;
mod path_rows;
mod path_table;
mod path_trace_id;
mod path_words;
mod paths;
mod record_values;
mod showing;
mod spans;
mod tracks;

pub use following::follow_paths;
pub use path_table::PathChoice;
pub use showing::{OutputFormat, page_of_folders, show_folders};
pub use spans::span_of_words;
