ghost use Rattle.std.specs.Prelude.{◌≡◌, ◌<◌, ◌≤◌, List, ℕ, length, map, IfOk};
ghost use Rattle.std.specs.List.{All};
ghost use Rattle.std.specs.List.Sorted.{IsPermutation};
ghost use Rattle.scq_collect.specs.declared.answered.Answered.{Answered as TheAnswered};
ghost use Rattle.scq_collect.specs.Exports.{messages_to, AreWhole, IsJoined, answers_of};
ghost use Rattle.scq_collect.specs.Exports.{part_answers, without_way, StandInOrder, members_of};
ghost use Rattle.scq_collect.specs.Exports.{position_of_answer, position_of_part, answer_of_whole};
ghost use Rattle.scq_collect.specs.Exports.{answers_to, plain, spot_answer};

use crate::joining::whole_of;
use crate::messages::message_end;
use crate::ordering::spots_in_order;
use crate::spots::Spot;
use crate::{Answers, Whole};
use scq_topics::Topics;
use scq_word::NoMemory;
use std::alloc::Global;

/// The answers to the messages whose parts stand in the lists, in order of file and line. The
/// members of a list may stand in any order.
pub fn merge(alloc: Global, topics: &Topics, lists: &[Answers]) -> Result<Vec<Whole>, NoMemory>
    requires { All (λ a. a.topic ≤ length topics.now) (members_of lists.now) }
    ensures joined { IfOk result (λ wholes.
        IsJoined topics.now (members_of lists.now) (map answer_of_whole wholes.items)) }

    // Where all parts of each message are there, each message stands once.
    ensures in_order { AreWhole (members_of lists.now)
        → IfOk result (λ wholes.
        StandInOrder position_of_answer (map answer_of_whole wholes.items)) }

    // However the members are divided into lists, what is made of them is the same.
    ensures exact { (given : List TheAnswered) → StandInOrder position_of_part given
        → IsPermutation (members_of lists.now) given
        → IfOk result (λ wholes.
        map answer_of_whole wholes.items ≡ answers_of topics.now (map without_way given)) }
    ensures one_thread { (size : ℕ) (contents : List (List ℕ)) → 0 < size
        → IsPermutation (map without_way (members_of lists.now))
        (part_answers topics.now size (messages_to topics.now 1 contents))
        → IfOk result (λ wholes.
        map answer_of_whole wholes.items ≡ answers_to topics.now 1 contents) }
{
    let spots = spots_in_order(alloc, lists)?;
    wholes_of(alloc, topics, spots.as_slice())
}

/// The answers to the messages of parts that stand in order.
fn wholes_of(alloc: Global, topics: &Topics, spots: &[Spot<'_>]) -> Result<Vec<Whole>, NoMemory>
    requires { All (λ s. (spot_answer s).topic ≤ length topics.now) spots.now }
    ensures { IfOk result (λ wholes.
        map answer_of_whole wholes.items ≡ answers_of topics.now (plain spots.now)) }
{
    let mut wholes = Vec::new(alloc);
    let mut at = 0;
    'messages: while at < spots.len() {
        let end = message_end(spots, at);
        wholes.push(whole_of(alloc, topics, &spots[at..end])?)?;
        at = end;
    }
    Ok(wholes)
}
