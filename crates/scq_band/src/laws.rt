//! Laws of all words and views that the rule of a band allows, of what its seats have seen, and of
//! where the words stand. The functions do nothing: each stands for its contract.
ghost use Rattle.std.specs.Prelude.{List};
ghost use Rattle.scq_word.specs.declared.setup.Setup.{Setup};
ghost use Rattle.scq_band.specs.Exports.{LiesIn, opening_of, EachViewKnowsTruth, HotWordsAreApart};
ghost use Rattle.scq_band.specs.Exports.{EachTwoPrefixesAreComparable, EachSeenCallComesFirst};
ghost use Rattle.scq_band.specs.Exports.{EachCallInARunSeenComesFirst};

use scq_word::Buffer;

/// What a seat or a note knows is true at every moment, between any two steps: Head of a ring is at
/// or past the head number, Tail is past the seen number, the finished number is the place of an
/// enqueue that has ended (or the one known at the start), and the gate is no higher than the seat
/// last found it. The numbers that contracts see of a seat are those of its view.
pub fn each_view_knows_the_truth<B: Buffer>()
    ensures { (given : List B) (c : Setup)
        → EachViewKnowsTruth (LiesIn B.contents B.IsSameBuffer given)
        (opening_of B.contents given) c }
{}

/// Where a seat had seen the very run that a call of some seat left behind it, and then began a
/// call of its own, each step of that call was made before each of its own; and where both are of
/// one ring, it stands before it in the ring's one order.
pub fn calls_seen_come_first()
    ensures { EachSeenCallComesFirst }
{}

/// The same of each call, of whatever seat, that had ended in a run which the seat had seen when it
/// began its own: by a call or a reading of its own, by a look, by a mark or by a note.
pub fn calls_in_a_run_seen_come_first()
    ensures { EachCallInARunSeenComesFirst }
{}

/// Of two prefixes of one run one is a prefix of the other. So it is with the runs `before` and
/// `after` of any two calls of two seats that have met since (`Band::meet`).
pub fn prefixes_are_comparable()
    ensures { EachTwoPrefixesAreComparable }
{}

/// The gate, and Tail, Head and Threshold of each ring, stand apart from each other and from all
/// entries by the distance of the layout.
pub fn hot_words_are_apart()
    ensures { HotWordsAreApart }
{}
