//! Why the bytes of a netlist have no checked net.
ghost use Rattle.std.specs.Prelude.{◌≡◌};
ghost use Rattle.net_front.specs.Refusals.{netlist_number, netlist_word};

use el_base::Memory;
use net_check::NetRefusal;
use net_text::TextRefusal;

/// Why bytes have no checked net: what the reader of net texts says, or the first broken rule. Want of memory is
/// [`NetlistRefusal::Memory`] whichever of them wanted it.
#[derive(Clone, Copy, Debug, PartialEq, Eq)]
pub enum NetlistRefusal {
    /// The bytes are no net text.
    Text(TextRefusal),
    /// The net breaks a rule.
    Rule(NetRefusal),
    /// Memory ran out.
    Memory,
}

impl NetlistRefusal {
    /// The number by which it is printed: 30 to 37 of a rule, 40 to 42 from the reader; none for want of memory.
    pub fn number(&self) -> Option<u32>
        ensures { result ≡ netlist_number self.now }
    {
        match self {
            NetlistRefusal::Text(refused) => refused.number(),
            NetlistRefusal::Rule(refused) => refused.number(),
            NetlistRefusal::Memory => None,
        }
    }

    /// The word by which it is printed.
    pub fn word(&self) -> &'static str
        ensures { result.now ≡ netlist_word self.now }
    {
        match self {
            NetlistRefusal::Text(refused) => refused.word(),
            NetlistRefusal::Rule(refused) => refused.word(),
            NetlistRefusal::Memory => "Memory",
        }
    }
}

impl From<Memory> for NetlistRefusal {
    ghost use Rattle.net_front.specs.declared.refusal.NetlistRefusal.TheVariants as refusal;

    ghost from_gives = { λ _ e. e ≡ refusal.Memory };

    fn from(_: Memory) -> NetlistRefusal {
        NetlistRefusal::Memory
    }
}

impl From<TextRefusal> for NetlistRefusal {
    ghost use Rattle.net_front.specs.Refusals.{of_text};

    ghost from_gives = { λ r e. e ≡ of_text r };

    fn from(refused: TextRefusal) -> NetlistRefusal {
        match refused {
            TextRefusal::Memory => NetlistRefusal::Memory,
            _ => NetlistRefusal::Text(refused),
        }
    }
}

impl From<NetRefusal> for NetlistRefusal {
    ghost use Rattle.net_front.specs.Refusals.{of_rules};

    ghost from_gives = { λ r e. e ≡ of_rules r };

    fn from(refused: NetRefusal) -> NetlistRefusal {
        match refused {
            NetRefusal::Memory => NetlistRefusal::Memory,
            _ => NetlistRefusal::Rule(refused),
        }
    }
}
