// The own finishes of the epochs that were left.
ghost use Rattle.std.specs.Prelude.{◌≡◌, ◌<◌};
ghost use Rattle.common.specs.Limits.{epochs};
ghost use Rattle.replica.specs.Finishing.{past_of, finish_kept};

use crate::state::Replica;

impl Replica {
    // The one of an epoch, if any was kept.
    pub fn past_finish(&self, epoch: u16) -> Option<bool>
        ensures { result ≡ past_of self.now epoch }
    {
        *self.past.get(usize::from(epoch))?
    }

    // Keeps that of the current epoch, which is about to be left.
    pub fn keep_finish(&mut self)
        requires week { self.old.epoch < epochs }
        ensures { self.new ≡ finish_kept self.old }
    {
        let finish = self.votes.finish.bit(self.set.me);
        self.past[usize::from(self.epoch)] = finish;
    }
}
