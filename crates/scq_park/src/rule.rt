//! The rule of a parker, what its steps tell, and how its views are cut and joined.
use atomic_table::{Join, Split};
use crossbeam_utils::rule::{Outcome, Protocol};
use crossbeam_utils::sync::parker::{RuledParker, RuledUnparker};
use std::marker::Model;

/// What a pass to a parker stands for. No value of it is made: it stands in proofs alone.
pub struct View {}

impl Model for View {
    ghost use Rattle.scq_park.specs.Rule.{Deeds, deeds};

    ghost Value = { Deeds };

    ghost view = { λ _. deeds 0 0 0 };
}

/// The rests and the token together are at most the wakes.
pub struct ParkerRule {}

impl Protocol<bool, View> for ParkerRule {
    ghost use Rattle.scq_park.specs.Rule.{IsCovered, deeds};

    ghost holds = { IsCovered };

    ghost first = { deeds 8192 0 0 };
}

/// A wake sets the token, and is counted.
pub struct Wakes {}

impl Outcome<bool, View> for Wakes {
    ghost use Rattle.scq_park.specs.Rule.{once_woken};
    ghost use Rattle.std.specs.Prelude.{◌≡◌};

    ghost then = { λ v _ _ w. w ≡ once_woken v };
}

/// A rest takes the token, and is counted.
pub struct Rests {}

impl Outcome<bool, View> for Rests {
    ghost use Rattle.scq_park.specs.Rule.{once_rested};
    ghost use Rattle.std.specs.Prelude.{◌≡◌};

    ghost then = { λ v _ _ w. w ≡ once_rested v };
}

/// Who has all parts sees that the rests are at most the wakes.
pub struct Settles {}

impl Outcome<bool, View> for Settles {
    ghost use Rattle.std.specs.Prelude.{◌≤◌};

    ghost then = { λ v _ _ _. v.rested ≤ v.woke };
}

/// One part is cut off.
pub struct Shares {}

impl Split<View> for Shares {
    ghost use Rattle.scq_park.specs.Rule.{one_part_less, deeds};

    ghost left = { one_part_less };

    ghost right = { λ _. deeds 1 0 0 };
}

/// All is cut off.
pub struct Leaves {}

impl Split<View> for Leaves {
    ghost use Rattle.scq_park.specs.Rule.{deeds};

    ghost left = { λ _. deeds 0 0 0 };

    ghost right = { λ v. v };
}

/// Two views are added up.
pub struct Joins {}

impl Join<View> for Joins {
    ghost use Rattle.scq_park.specs.Rule.{added, deeds};

    ghost both = { added };

    ghost spent = { deeds 0 0 0 };
}

/// What a worker rests on.
pub type Parker = RuledParker<View, ParkerRule>;

/// What a worker is woken by.
pub type Unparker = RuledUnparker<View, ParkerRule>;
