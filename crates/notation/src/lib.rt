// A text notation for questions: read them from a file, with errors that say where and what, and print
// them in a normal form.
//
// `Reader` gives the questions of a text one after another. `report` makes an error into lines for
// people, and `normal_form` prints a question so that reading it again gives the same question.
#![tactic(auto)]

mod characters;
pub mod cursors;
pub mod drafts;
pub mod errors;
pub mod faults;
pub mod lines;
pub mod normals;
pub mod numbering;
pub mod places;
pub mod problems;
pub mod quotes;
pub mod readers;
pub mod reports;
pub mod scans;
pub mod spans;
pub mod stops;
pub mod text_readers;
pub mod tokens;
pub mod words;

pub use cursors::MOST_BYTES;
pub use errors::Error;
pub use normals::normal_form;
pub use numbering::Asked;
pub use problems::Problem;
pub use readers::Reader;
pub use reports::report;
pub use spans::Span;
pub use text_readers::TextReader;
