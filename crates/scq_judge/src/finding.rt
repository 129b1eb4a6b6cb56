//! What the lines of a report say together.

ghost use Rattle.std.specs.Prelude.{◌≡◌};
ghost use Rattle.scq_judge.specs.Findings.{finding_of, full_finding, opening_finding, unbroken_finding};
ghost use Rattle.scq_judge.specs.Findings.{worse, worst_finding};

use crate::judging::Report;
use scq_check::Failures;

/// What a line of a report says of its aspect.
#[derive(Clone, Copy, Debug, PartialEq, Eq)]
pub enum Finding {
    Holds,
    NotTested,
    Fails,
}

impl Finding {
    // What the line of an aspect says.
    fn of(tested: bool, failures: &Failures) -> Finding
        ensures { result ≡ finding_of tested failures.now.first }
    {
        match failures.first {
            None => Finding::unbroken(tested),
            Some(_) => Finding::Fails,
        }
    }

    fn unbroken(tested: bool) -> Finding
        ensures { result ≡ unbroken_finding tested }
    {
        if tested {
            Finding::Holds
        } else {
            Finding::NotTested
        }
    }

    // What the line on the room says, where it is known.
    fn of_room(tested: bool, full: Option<Failures>) -> Finding
        ensures { result ≡ full_finding tested full }
    {
        match full {
            None => Finding::Holds,
            Some(failures) => Finding::of(tested, &failures),
        }
    }

    // What the line on opening tokens says, where there are two or more.
    fn of_opening(report: &Report) -> Finding
        ensures { result ≡ opening_finding report.now }
    {
        if report.tokens > 1 {
            Finding::of(report.tests_opening(), &report.breaches.opening)
        } else {
            Finding::Holds
        }
    }

    // The worse of two: one that fails, else one that isn't tested.
    fn or_worse(self, other: Finding) -> Finding
        ensures { result ≡ worse self other }
    {
        match (self, other) {
            (Finding::Fails, _) => Finding::Fails,
            (Finding::NotTested, Finding::Fails) => Finding::Fails,
            (Finding::NotTested, _) => Finding::NotTested,
            (Finding::Holds, other) => other,
        }
    }
}

impl Report {
    /// The worst that a line of the report says.
    pub(crate) fn worst(&self) -> Finding
        ensures { result ≡ worst_finding self.now }
    {
        let breaches = &self.breaches;
        let gots = self.tests_gots();
        let refused = self.tests_refused();
        let fresh = Finding::of(gots, &breaches.fresh);
        let once = Finding::of(gots, &breaches.once);
        let in_order = Finding::of(self.tests_order(), &breaches.in_order);
        let empty_right = Finding::of(self.tests_empty(), &breaches.empty_right);
        let accepted = Finding::of(refused, &breaches.accepted);
        let full = Finding::of_room(refused, self.full);
        fresh
            .or_worse(once)
            .or_worse(in_order)
            .or_worse(empty_right)
            .or_worse(accepted)
            .or_worse(full)
            .or_worse(Finding::of_opening(self))
    }
}
