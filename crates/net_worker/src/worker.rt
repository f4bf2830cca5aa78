//! A worker.
ghost use Rattle.std.specs.Prelude.{◌≡◌, ◌≤◌, ◌<◌};
ghost use Rattle.elastic_link.specs.Credits.{IsStamp};
ghost use Rattle.net_worker.specs.Shares.{max_share};

use crate::channel_ends::ChannelEnds;
use crate::portion::Portion;
use crate::ready::Ready;
use elastic_link::{PutEnd, TakeEnd};
use firing_log::FiringLog;

/// The units that one worker owns, its ends of links, and the log of its firings.
#[derive(Drop)]
pub struct Worker {
    pub(crate) number: u32,
    pub(crate) share: u64,
    pub(crate) clock: u64,
    pub(crate) log: FiringLog,
    /// What its own units keep and the tokens of the channels at them: of a channel from another worker the token that the end
    /// holds, and of a channel to another worker none.
    pub(crate) portion: Portion,
    /// By channel.
    pub(crate) puts: ChannelEnds<PutEnd>,
    pub(crate) takes: ChannelEnds<TakeEnd>,
    /// The channels to other workers, and those from others.
    pub(crate) outs: Vec<u32>,
    pub(crate) ins: Vec<u32>,
    /// The units that may be able to fire.
    pub(crate) ready: Ready,
    /// By channel to another worker: there where a firing waits for a credit of its end.
    pub(crate) waits: ChannelEnds<()>,
    /// Each firing of its units that is enabled in its state waits so.
    pub(crate) resting: bool,
    pub(crate) closed: bool,
    /// Keeps what two workers of a list write in cache lines of their own.
    pub(crate) apart: [u64; 16],
    pub ghost most: { share ≤ max_share },
    pub ghost stamp: { IsStamp clock },
    pub ghost put_places: { puts.chans ≡ outs.items },
    pub ghost take_places: { takes.chans ≡ ins.items },
    pub ghost wait_places: { waits.chans ≡ outs.items },
}
