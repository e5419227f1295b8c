// A damaged bench script: its whole, sound records, and the runs of bytes between them.
#![tactic(auto)]

mod report_lines; // the report as text, for the error output
mod scripts; // a whole script
mod steps; // from piece to piece
mod writes; // the pieces written

pub use report_lines::put_text;
pub use scripts::{REPORT, Rescued, SCRIPT, TEXT, rescue};
