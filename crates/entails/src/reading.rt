// Reading words as a question.
ghost use Rattle.entails.specs.Deciding.{GoalRead};

use crate::goals::Goal;
use claims::decode_question;

// The question that the words are, as values; or none, if they are no question.
pub fn read_goal(words: &[u32]) -> Option<Goal>
    ensures { GoalRead words.now result }
{
    let question = decode_question(words)?;
    Some(Goal {
        names: question.names,
        first: question.first,
        second: question.second,
    })
}
