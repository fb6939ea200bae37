// The desk's report: the lines of the report's input, whose words are handed to the desk, and a line of text where a
// super-frame is complete or a line or word refused (document 02, E3). For the program tpsdesk alone.
#![tactic(auto)]

pub mod inner;
mod stream;
mod text;
