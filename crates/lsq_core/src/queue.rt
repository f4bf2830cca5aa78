//! What every load-store queue does.

ghost use Rattle.std.specs.Prelude.{◌≡◌, ◌+◌, ◌≤◌, ◌^◌, true, false, length};
ghost use Rattle.el_base.specs.Limits.{max_depth};
ghost use Rattle.lsq_core.specs.Views.{QueueView, InOrder, InPorts, allows, given, acted, oldest_of, reply_of, count_of};

use net_types::Act;

/// What an act gives: the value that it puts, and whether its address lies past the array.
#[derive(Clone, Copy)]
pub struct Outcome {
    pub put: Option<u64>,
    pub stray: bool,
}

impl Outcome {
    /// What an act gives that reaches no array.
    pub(crate) fn plain(put: Option<u64>) -> Outcome
        ensures { result ≡ record { put = put; stray = false } }
    {
        Outcome { put, stray: false }
    }
}

/// A load-store queue with its array.
///
/// Contracts see its entries, oldest first, its array and its shape. No method takes memory.
pub trait Queue {
    ghost state: { Self → QueueView };

    /// Whether the queue allows an act, channels left aside.
    fn can(&self, act: Act) -> bool
        ensures { result ≡ allows (state self.now) act };

    /// Makes an act, with the token that it takes where it takes one.
    ///
    /// The next serial number rises by at most the greatest depth.
    fn act(&mut self, act: Act, token: u64) -> Outcome
        requires allowed { allows (state self.old) act ≡ true }
        requires serial { (state self.old).queue.next ≤ 2 ^ 62 }
        ensures queue { state self.new ≡ acted (state self.old) act token }
        ensures put { result.put ≡ (given (state self.old) act token).put }
        ensures stray { count_of result.stray ≡ (given (state self.old) act token).strays }
        ensures next { (state self.new).queue.next ≤ (state self.old).queue.next + max_depth };

    /// The array, as the acts so far left it.
    fn array(&self) -> &[u64]
        ensures { result.now ≡ (state self.now).array };

    /// The serial number of the oldest entry that may execute, where one may.
    fn oldest(&self) -> Option<u64>
        ensures { result ≡ oldest_of (state self.now).queue };

    /// The value that a reply at a port would put, where the queue allows one.
    fn reply(&self, port: u32) -> Option<u64>
        ensures { result ≡ reply_of (state self.now).queue.items port };

    /// How many entries there are.
    ///
    /// Their serial numbers rise by one up to the next one, and each is of a port.
    fn len(&self) -> u32
        ensures len { result ≡ length (state self.now).queue.items }
        ensures order { InOrder (state self.now).queue }
        ensures ports { InPorts (length (state self.now).ports) (state self.now).queue.items };
}
