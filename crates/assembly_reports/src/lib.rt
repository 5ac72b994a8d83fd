//! The report of an assembly: what is found of its methods, as they are written or with what is inferred of them, and
//! the lines that tell it; and the report of one unit.
//!
//! specs/CheckText has the text, specs/InferredUnits what is inferred, specs/JudgedUnits the units that are judged, in
//! order, and specs/Sections what one reads off a report.
#![tactic(auto)]

mod check_report;
mod finding;
mod inferring;
mod labels;
mod unit_report;

pub use check_report::{
    ReportLines, count, find_alone, report, report_file, report_lines, status_of,
};
pub use finding::{Finding, FoundUnit};
pub use labels::Labels;
pub use unit_report::unit_lines;
