//! The sources of files, for contracts alone: as they were at some time, and as they were let go.
ghost use Rattle.std.specs.Prelude.{◌≡◌, ◌∷◌, [], ◌++◌};

use std::marker::Model;
use std::snapshot::Snapshot;

/// The sources of files as they were at some time, in the order of the files. It is for contracts
/// alone: when the program runs it has no bytes, and keeps no file open.
#[derive(Drop)]
pub struct Sources<S> {
    line: Snapshot<Line<S>>,
}

/// No source, these, or one more behind others.
#[derive(Drop)]
pub enum Line<S> {
    Nothing,
    These(Snapshot<Vec<S>>),
    After {
        before: Snapshot<Line<S>>,
        source: Snapshot<S>,
    },
}

impl<S> Model for Sources<S> {
    ghost use Rattle.scq_service.specs.Sources.{SourceList, sources_in};

    ghost Value = { SourceList S };

    ghost view = { λ s. record { items = sources_in s.line.value } };
}

impl<S> Sources<S> {
    pub(crate) fn these(sources: Snapshot<Vec<S>>) -> Sources<S>
        ensures { result.items ≡ sources.value.items }
    {
        Sources {
            line: Snapshot::of(&Line::These(sources)),
        }
    }

    pub(crate) fn none() -> Sources<S>
        ensures { result.items ≡ [] }
    {
        Sources {
            line: Snapshot::of(&Line::Nothing),
        }
    }

    /// One source more.
    pub(crate) fn with(self, source: &S) -> Sources<S>
        ensures { result.items ≡ self.items ++ source.now ∷ [] }
    {
        let Sources { line: before } = self;
        let source = Snapshot::of(source);
        Sources {
            line: Snapshot::of(&Line::After { before, source }),
        }
    }
}

/// Sources of files that were let go, each as it was last, in the order of the files. It takes each
/// by value, so that nothing can be read of it afterwards. Else it is as `Sources`.
#[derive(Drop)]
pub struct LetGo<S> {
    ends: Sources<S>,
}

impl<S> Model for LetGo<S> {
    ghost use Rattle.scq_service.specs.Sources.{SourceList};

    ghost Value = { SourceList S };

    ghost view = { λ l. l.ends };
}

impl<S: Drop> LetGo<S> {
    /// Lets these go.
    pub(crate) fn these(sources: Vec<S>) -> LetGo<S>
        ensures { result.items ≡ sources.items }
    {
        LetGo {
            ends: Sources::these(Snapshot::of(&sources)),
        }
    }

    pub(crate) fn none() -> LetGo<S>
        ensures { result.items ≡ [] }
    {
        LetGo {
            ends: Sources::none(),
        }
    }

    /// Lets one more go.
    pub(crate) fn and(self, source: S) -> LetGo<S>
        ensures { result.items ≡ self.items ++ source ∷ [] }
    {
        let LetGo { ends } = self;
        LetGo {
            ends: ends.with(&source),
        }
    }
}
