//! The link between two workers that are in one thread.
ghost use Rattle.std.specs.Prelude.{IsSome};
ghost use Rattle.net_worker.specs.Workers.{put_end, take_end, AreLinkedAt, IsSoundAt};
ghost use Rattle.net_worker.specs.Settles.{IsKeptWith};

use crate::worker::Worker;

impl Worker {
    /// With both workers in one thread: the link of a channel from this worker to the other is sound, whatever threads swept
    /// them before. Moves nothing, and takes no memory.
    pub fn settle(&mut self, other: &mut Worker, chan: u32)
        requires put { IsSome (put_end self.old chan) }
        requires take { IsSome (take_end other.old chan) }
        requires link { AreLinkedAt chan self.old other.old }
        ensures sound { IsSoundAt chan self.new other.new }
        ensures this { IsKeptWith self.old self.new }
        ensures that { IsKeptWith other.old other.new }
    {
        let put_near = self.puts.last();
        let take_near = other.takes.last();
        if let Some(put) = self.puts.get_mut(chan, put_near) {
            if let Some(take) = other.takes.get_mut(chan, take_near) {
                put.settle(take);
            }
        }
    }
}
