ghost use Rattle.std.specs.Prelude.{◌≡◌};
ghost use Rattle.votes.specs.Votes.{no_votes};

use crate::ballot::{Round, Votes};
use crate::marks::Marks;

impl Votes {
    // An epoch begins with no votes.
    pub fn none() -> Votes
        ensures { result ≡ no_votes }
    {
        let none = Marks::none();
        let round = Round {
            values: none,
            seens: none,
            confirms: none,
        };
        Votes {
            rounds: [round; 16],
            finish: none,
        }
    }
}
