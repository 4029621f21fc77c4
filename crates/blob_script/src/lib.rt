//! The words of the program: command lines, the lines of scripts, their answers, the lines of reports, and how a run ended.
#![tactic(auto)]

mod action;
mod answer;
mod content;
mod form;
mod line;
mod number;
mod report;
mod status;
mod step;
mod word;

pub use action::Action;
pub use answer::{Answer, AnswerLine};
pub use content::Content;
pub use form::Form;
pub use number::number_of;
pub use report::{checked_line, formatted_line, last_line, state_line};
pub use status::Status;
pub use step::{Step, StepFault};
