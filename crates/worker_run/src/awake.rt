//! Which workers may have something to do, while they are swept in turn.

ghost use Rattle.std.specs.Prelude.{◌≡◌};
ghost use Rattle.net_worker.specs.Views.{net_of};

use el_base::MAX_WORKERS;
use net_check::Checked;
use net_worker::Tables;

/// How many workers there may be.
const MOST: usize = MAX_WORKERS as usize;

/// Which workers share a channel.
#[derive(Drop)]
pub(crate) struct Neighbours {
    /// By worker, and then by worker.
    shared: [[bool; MOST]; MOST],
}

impl Neighbours {
    /// Those at both ends of each channel of a net. Takes no memory.
    pub(crate) fn new(net: &Checked, tables: &Tables) -> Neighbours
        requires { net_of tables.now ≡ net.now }
    {
        let mut neighbours = Neighbours {
            shared: [[false; MOST]; MOST],
        };
        for chan in 0..net.net().chans.len() {
            neighbours.join(tables.putter(chan as u32), tables.taker(chan as u32));
        }
        neighbours
    }

    /// Notes that two workers share a channel.
    fn join(&mut self, from: u32, to: u32) {
        let from = from as usize;
        let to = to as usize;
        if from < MOST && to < MOST {
            self.shared[from][to] = true;
            self.shared[to][from] = true;
        }
    }
}

/// The workers whose last sweep made a firing, and those to whom a token or a credit may have come since their last sweep.
#[derive(Drop)]
pub(crate) struct Awake {
    /// By worker.
    awake: [bool; MOST],
}

impl Awake {
    /// All workers.
    pub(crate) fn all() -> Awake {
        Awake {
            awake: [true; MOST],
        }
    }

    /// Whether a worker is awake.
    pub(crate) fn has(&self, number: u32) -> bool {
        let at = number as usize;
        at >= MOST || self.awake[at]
    }

    /// Notes how many firings the sweep of a worker made: where it made some, it is awake, and so are its neighbours.
    pub(crate) fn note(&mut self, neighbours: &Neighbours, number: u32, made: u32) {
        let at = number as usize;
        if at >= MOST {
            return;
        }
        self.awake[at] = made > 0;
        if made > 0 {
            self.wake(&neighbours.shared[at]);
        }
    }

    /// Notes that these are awake too.
    fn wake(&mut self, woken: &[bool; MOST]) {
        for at in 0..MOST {
            self.awake[at] |= woken[at];
        }
    }
}
