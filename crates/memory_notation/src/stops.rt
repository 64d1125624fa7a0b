// Why the reading of a case stops: as for a question, with more problems.
use crate::problems::Problem;

pub type Stop<'a> = notation::stops::Stop<Problem<'a>>;
