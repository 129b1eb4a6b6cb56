//! The gate: how many seats have not retired.
ghost use Rattle.std.specs.Prelude.{◌≡◌, ◌<◌, length, None};
ghost use Rattle.scq_band.specs.Exports.{with_retiree, IsReading, opening_of, Looked, my, IsAlone};
ghost use Rattle.scq_band.specs.Exports.{looked, retired_at};

use crate::layout::GATE;
use crate::rule::{Token, Words};
use crate::told::{load_told, subtract_told};
use scq_word::Buffer;
use std::marker::Brand;

/// How many seats have not retired, which is 0 where all have.
#[inline(always)]
pub fn read_gate<B: Buffer>(words: &Words<B>, token: &mut Token<B>) -> u64
    requires own { token.old.table_id ≡ words.now.table_id }
    requires room { 0 < words.now.table_id.words }
    ensures own { (token.new.table_id ≡ token.old.table_id) × (token.new.id ≡ token.old.id) }
    ensures looked { token.new.me.0.known ≡ looked result token.old.me.0.known }
    ensures in_run { Looked words.now.key.setup
        (opening_of B.contents words.now.key.given.value.items)
        token.old.me.0 token.new.me.0 result }
    ensures slots { token.new.me.1 ≡ token.old.me.1 }
    ensures reading { IsReading words.now.key.setup.seats token.old.me.0.known.gate
        (my token.old.me.0.known).retired result }
{
    load_told::<B, Brand>(words, token, GATE)
}

/// The seat retires: the gate falls by one.
pub fn retire<B: Buffer>(words: &Words<B>, token: &mut Token<B>)
    requires own { token.old.table_id ≡ words.now.table_id }
    requires room { 0 < words.now.table_id.words }
    requires alone { IsAlone token.old.me.0.known }
    requires stays { (my token.old.me.0.known).retired ≡ None }
    ensures own { (token.new.table_id ≡ token.old.table_id) × (token.new.id ≡ token.old.id) }
    ensures seen { token.new.me.0.seen
        ≡ with_retiree (
          (my token.old.me.0.known).number,
          length (my token.old.me.0.known).part.calls,
        ) token.old.me.0.seen }
    ensures retired { token.new.me.0.known ≡ retired_at token.old.me.0.known }
    ensures slots { token.new.me.1 ≡ token.old.me.1 }
{
    subtract_told::<B, Brand>(words, token, GATE, 1);
}
