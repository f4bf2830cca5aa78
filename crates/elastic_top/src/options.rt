//! What the options of a command ask for.
ghost use Rattle.std.specs.Prelude.{◌≡◌, ◌<◌, ◌^◌, ℕ, Some, find};
ghost use Rattle.buffer_place.specs.Timings.{IsTiming};
ghost use Rattle.elastic_top.specs.Options.{IsWithin, at_or, circuit_of, delay_or, interpretation_of, is_of, limit_or, options_of, profile_of, slots_or, timing_of, turns_or};

use buffer_place::Timing;
use c_meaning::Profile;
use command_words::{Chosen, Class, ClassDelay};
use el_base::List;
use kernel_ref::{DEFAULT_TURNS, InterpretOptions};
use kernel_runs::CircuitOptions;
use net_runs::{DEFAULT_FIRINGS, RunOptions};

/// What a run is asked for.
pub fn options_of(chosen: &Chosen) -> RunOptions
    ensures { result ≡ options_of chosen.now }
{
    RunOptions {
        limit: limit_or(chosen.limit),
        count: chosen.count,
        cycles: chosen.cycles,
        log: chosen.log,
        workers: chosen.workers,
    }
}

/// The most firings of a run.
pub fn limit_or(asked: Option<u64>) -> u64
    ensures { result ≡ limit_or asked }
{
    match asked {
        Some(limit) => limit,
        None => DEFAULT_FIRINGS,
    }
}

/// After how many firings a state is saved.
pub fn at_or(asked: Option<u64>) -> u64
    ensures { result ≡ at_or asked }
{
    match asked {
        Some(at) => at,
        None => 0,
    }
}

/// What the plain interpreter is asked for.
pub fn interpretation_of(chosen: &Chosen) -> InterpretOptions
    ensures { result ≡ interpretation_of chosen.now }
{
    InterpretOptions {
        profile: profile_of(chosen.wrap),
        turns: turns_or(chosen.turns),
        count: chosen.count,
    }
}

fn profile_of(wrap: bool) -> Profile
    ensures { result ≡ profile_of wrap }
{
    if wrap { Profile::Wrap } else { Profile::Plain }
}

fn turns_or(asked: Option<u64>) -> u64
    ensures { result ≡ turns_or asked }
{
    match asked {
        Some(turns) => turns,
        None => DEFAULT_TURNS,
    }
}

/// What a circuit is asked for.
pub fn circuit_of(chosen: &Chosen) -> CircuitOptions
    requires { IsWithin chosen.now }
    ensures value { result ≡ circuit_of chosen.now }
    ensures within { IsTiming result.timing }
{
    CircuitOptions {
        timing: timing_of(chosen),
        forward: chosen.forward,
    }
}

fn timing_of(chosen: &Chosen) -> Timing
    requires { IsWithin chosen.now }
    ensures value { result ≡ timing_of chosen.now }
    ensures within { IsTiming result }
{
    let usual = Timing::usual();
    Timing {
        logic: delay_or(&chosen.delay, Class::Logic, usual.logic),
        mul: delay_or(&chosen.delay, Class::Mul, usual.mul),
        div: delay_or(&chosen.delay, Class::Div, usual.div),
        read: delay_or(&chosen.delay, Class::Read, usual.read),
        lsq: delay_or(&chosen.delay, Class::Lsq, usual.lsq),
        slots: slots_or(chosen.slots),
        depth: depth_of(chosen.depth),
    }
}

// The cycles that a list names for a class, or the usual ones.
fn delay_or(delays: &Option<List<ClassDelay>>, class: Class, usual: u32) -> u32
    requires { delay_or delays.now class usual < 2 ^ 32 }
    ensures { result ≡ delay_or delays.now class usual }
{
    let Some(delays) = delays else {
        return usual;
    };
    match named(delays.as_slice(), class) {
        Some(delay) => delay.cycles as u32,
        None => usual,
    }
}

// The delay of a class.
fn named(delays: &[ClassDelay], class: Class) -> Option<ClassDelay>
    ensures { result ≡ find (is_of class) delays.now }
{
    delays
        .iter()
        .find(|delay| delay.class.word() == class.word())
        .copied()
}

// The depth that is asked for.
fn depth_of(asked: Option<u64>) -> Option<u32>
    requires { (n : ℕ) → asked ≡ Some n → n < 2 ^ 32 }
    ensures { result ≡ asked }
{
    match asked {
        Some(depth) => Some(depth as u32),
        None => None,
    }
}

fn slots_or(asked: Option<u64>) -> u32
    requires { slots_or asked < 2 ^ 32 }
    ensures { result ≡ slots_or asked }
{
    match asked {
        Some(slots) => slots as u32,
        None => Timing::usual().slots,
    }
}
