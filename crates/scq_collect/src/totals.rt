ghost use Rattle.std.specs.Prelude.{◌≡◌, ◌<◌, ◌≤◌, map};
ghost use Rattle.std.specs.List.{All};
ghost use Rattle.scq_collect.specs.Output.{answer_of_whole};
ghost use Rattle.scq_collect.specs.Sums.{AreTotals};

use crate::Whole;
use crate::whole::AnswerView;

/// The most numbers that topics have: 16 declared ones, and one for all others.
pub const MOST_NUMBERS: usize = 17;

/// For each topic's number, how many answers there are and how many bytes their payloads have.
/// Their sum may pass 64 bits, since any numbers may stand in the answers.
#[derive(Clone, Copy)]
pub struct Totals {
    pub counts: [u64; MOST_NUMBERS],
    pub bytes: [u128; MOST_NUMBERS],
}

impl Totals {
    ghost use Rattle.std.specs.Prelude.{◌++◌, [], ◌∷◌, ◌+◌, ◌<◌, ◌^◌, List, length};
    ghost use Rattle.scq_collect.specs.Output.{Answer, answer_of_view};

    /// Those of no answers.
    pub fn none() -> Totals
        ensures { AreTotals result [] }
    {
        Totals {
            counts: [0; MOST_NUMBERS],
            bytes: [0; MOST_NUMBERS],
        }
    }

    /// Counts one answer more.
    pub fn count(&mut self, answer: &AnswerView<'_>)
        requires known { answer.now.topic < 17 }
        requires room { (answers : List Answer) × AreTotals self.old answers
            × (length answers + 1 < 2 ^ 64) }
        ensures { (answers : List Answer) → AreTotals self.old answers
            → AreTotals self.new (answers ++ answer_of_view answer.now ∷ []) }
    {
        let topic = answer.topic as usize;
        self.counts[topic] += 1;
        self.bytes[topic] += wide(answer.bytes);
    }

    /// Counts what others counted.
    pub fn add(&mut self, others: &Totals)
        requires room { (answers more : List Answer) × AreTotals self.old answers
            × AreTotals others.now more × (length answers + length more < 2 ^ 64) }
        ensures { (answers more : List Answer) → AreTotals self.old answers
            → AreTotals others.now more → AreTotals self.new (answers ++ more) }
    {
        for topic in 0..MOST_NUMBERS {
            self.counts[topic] += others.counts[topic];
            self.bytes[topic] += others.bytes[topic];
        }
    }
}

/// The totals of all topics, in one pass.
pub fn totals_of(wholes: &[Whole]) -> Totals
    requires { All (λ w. w.topic < 17) wholes.now }
    ensures { AreTotals result (map answer_of_whole wholes.now) }
{
    let mut totals = Totals::none();
    for whole in wholes {
        totals.count(&whole.view());
    }
    totals
}

fn wide(number: u64) -> u128
    ensures same { result ≡ number }
    ensures small { result ≤ 18446744073709551615 }
{
    u128::from(number)
}
