// Which numbers are taken for a clock.
ghost use Rattle.std.specs.Prelude.{◌≡◌, eqb};
ghost use Rattle.clock.specs.Clock.{InRange};
ghost use Rattle.clock.specs.Creation.{creation_refusal};
ghost use Rattle.clock.specs.Taken.{may_run, as_created, is_clock};
ghost use Rattle.clock.specs.Parts.{clearly_runs};

use crate::{Clock, creation_refusal, has};
use line::Line;

impl Clock {
    #[tactic(auto, using(crate::proofs::Taken::creatable_latest, crate::proofs::Taken::creatable_backstop), unfolding(crate::specs::Taken::is_clock))]
    pub(crate) fn is_clock(self) -> bool
        ensures { result ≡ is_clock self }
    {
        self.started <= 1
            && self.is_creatable()
            && if self.started == 1 {
                self.may_run()
            } else {
                self.is_as_created()
            }
    }

    // A running clock whose line begins by the latest time at no less than the backstop. No value is worked out to
    // tell it.
    #[tactic(auto, unfolding(crate::specs::Parts::clearly_runs, crate::specs::Taken::drawable))]
    pub(crate) fn clearly_runs(self) -> bool
        ensures { result ≡ clearly_runs self }
    {
        let Line {
            reference,
            synthetic,
            ..
        } = self.line;
        let creatable = self.is_creatable();
        let drawable = self.line.is_bounded(Clock::END, Clock::MAX_RATE);
        (self.started == 1)
            & creatable
            & drawable
            & (reference <= self.latest)
            & (self.backstop <= synthetic)
    }

    // Whether creation would take its word and backstop at its latest time.
    #[tactic(auto, using(tables::proofs::Refusals::ok_is), unfolding(crate::specs::Creation::creation_refusal))]
    fn is_creatable(self) -> bool
        ensures { result ≡ eqb (creation_refusal self.word self.backstop self.latest) 0 }
    {
        creation_refusal(self.word, self.backstop, self.latest).is_ok()
    }

    #[tactic(auto, using(crate::proofs::Taken::bounded_computable), unfolding(crate::specs::Taken::may_run, crate::specs::Taken::drawable))]
    fn may_run(self) -> bool
        requires latest { InRange self.latest }
        requires backstop { InRange self.backstop }
        ensures { result ≡ may_run self }
    {
        self.line.is_bounded(Clock::END, Clock::MAX_RATE)
            && self.line.reaches(self.latest, self.backstop)
    }

    #[tactic(auto, unfolding(crate::specs::Taken::as_created))]
    fn is_as_created(self) -> bool
        ensures { result ≡ as_created self }
    {
        !has(self.word, Clock::AUTO_START)
            & self.line.is_zeros()
            & (self.error == Clock::UNKNOWN_ERROR)
            & (self.generation == Clock::FIRST_GENERATION)
    }
}
