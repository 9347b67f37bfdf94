// Scripts: the calls that a text names.
#![tactic(auto)]

pub mod command;
pub mod line;
pub mod script;
pub mod written;

pub use line::{Kind, Line, Script, ScriptFault};
pub use script::parse;
pub use written::WrittenDate;
