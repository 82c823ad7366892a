// When a state is coherent: the test of number 12. The crate `coherence` makes it on the state's parts.
ghost use Rattle.std.specs.Prelude.{◌≡◌};
ghost use Rattle.scheduler.specs.Coherent.{coherent};

use super::state::State;
use coherence::passes::does_cohere;

impl State {
    // Is the state coherent? If it is not, number 12 applies.
    pub fn is_coherent(self) -> bool
        ensures { result ≡ coherent self }
    {
        does_cohere(
            self.plan,
            self.standings,
            self.broken,
            self.closed,
            self.history,
            self.history_len,
        )
    }
}
