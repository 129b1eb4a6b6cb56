ghost use Rattle.std.specs.Prelude.{◌≡◌, ℕ, ◌≤◌, Option, IsSome, IfOk, OnOk, OnErr, IsErr, IfSome};
ghost use Rattle.std.specs.Option.{option_map};
ghost use Rattle.scq_outside.specs.Counts.{RoseWhere};
ghost use Rattle.scq_outside.specs.Table.{Table, without_name};
ghost use Rattle.scq_outside.specs.declared.cause.Cause.{Cause as TheCause};

use crate::{Cause, Failed, Source};

/// Where sources come from, by name.
pub trait Files {
    type Src: Source;

    /// How often a source was not got. The count stands still at the last value of a u64.
    ghost faults: { Self → ℕ };

    /// For each name that is there its content, where the table is visible.
    ghost table: { Self → Option Table };

    /// What the last source that was not got failed by, where that is known.
    ghost cause: { Self → Option TheCause };

    fn cause(&self) -> Option<Cause>
        ensures { result ≡ cause self.now };

    /// The source of this name. Where the table is visible, it comes exactly where the name is in
    /// it, has the name's content left, and the name leaves the table.
    fn source(&mut self, name: &str) -> Result<Self::Src, Failed>
        ensures fresh { IfOk result (λ source. Self.Src.faults source ≡ 0) }
        ensures content { IfOk result (λ source.
            IfSome (table self.old) (λ files.
            IsSome (files name.now) × (Self.Src.left source ≡ files name.now))) }
        ensures given { OnOk result (table self.new
            ≡ option_map (without_name name.now) (table self.old)) }

        // What is known of a fault stays known.
        ensures told { OnOk result (cause self.new ≡ cause self.old) }

        // After a fault the table is what it was. Faults are counted, and nothing else is.
        ensures missing { OnErr result (IfSome (table self.old) (λ files. files name.now ≡ None)) }
        ensures unchanged { OnErr result (table self.new ≡ table self.old) }
        ensures counted { RoseWhere (IsErr result) (faults self.old) (faults self.new)
            × (faults self.old ≤ faults self.new) };
}
