use std::marker::Model;

/// What a token of the table knows, and what it has seen of the run. No value of it is ever made:
/// it is a type of the proofs.
pub struct View {}

impl Model for View {
    ghost use Rattle.scq_band.specs.Sights.{Sight, spent_sight};

    ghost Value = { Sight };

    ghost view = { λ _. spent_sight };
}
