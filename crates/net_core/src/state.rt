//! The state of a circuit.

ghost use Rattle.std.specs.Prelude.{◌≡◌, ◌<◌, ◌≤◌, ◌↔◌, ◌^◌, [], Some, get_or, length, map, true, IsTrue, IfOk, MatchOption, false};
ghost use Rattle.el_base.specs.Limits.{max_depth};
ghost use Rattle.circular_buffer.specs.Buffer.{last_item};
ghost use Rattle.net_types.specs.declared.net.Chan.{Chan as ChanValue};
ghost use Rattle.net_types.specs.declared.net.Net.{Net};
ghost use Rattle.net_types.specs.Inputs.{InputsFit};
ghost use Rattle.net_types.specs.Nets.{chan_at, kind_of, uses};
ghost use Rattle.net_check.specs.Ends.{is_lsq};
ghost use Rattle.net_core.specs.declared.cell.Cell.TheVariants.{Plain};
ghost use Rattle.net_core.specs.Fire.{first, enabled, after, at_array, has_room, tokens_at};
ghost use Rattle.net_core.specs.Held.{dated_laid, laid_on, put_at_end, take_at, taken_all};
ghost use Rattle.net_core.specs.Parts.{IsByUnit, Stands, state_from};
ghost use Rattle.net_core.specs.Plans.{apart, admits, chans_of, moves_of};
ghost use Rattle.net_core.specs.Runs.{HasExited, opening};
ghost use Rattle.net_core.specs.States.{CountsRise, CountsWithin, HasNoChannels, IsOf, IsPlanOf, IsQueueAt, TookAtExit, after_where, array_in, arrays_of, cell_at, dates_of, elements_at, exit_at, home_at, homes_of, queue_array, slots_in, state_of, strays_at, with_slots, with_tokens};

use crate::cell::{Cell, UnitQueue};
use crate::opening::{Home, exit_of, fresh_cells, homes, owners};
use crate::parts::{Parts, fired_flags, joined, queue_parts, restore_cells, sent_parts};
use crate::plan::{Moves, Plan, Put, moves_of};
use crate::steps::{change_cell, count_strays};
use crate::tokens::Tokens;
use net_check::Checked;
use net_types::{Firing, Inputs, List, Memory, Unit};
use std::alloc::Global;

/// A state of a circuit: the tokens of its channels, what its units keep, its arrays and its counts of strays.
///
/// It holds all memory that its firings take.
pub struct State {
    pub(crate) scalars: List<u64>,
    pub(crate) tokens: Tokens,
    pub(crate) cells: Vec<Cell>,
    homes: Vec<Home>,
    pub(crate) strays: Vec<u64>,
    exit: u32,
}

// By hand, so that to let go of one is a call.
impl Drop for State {
    fn drop(self) {
        let State {
            scalars: _scalars,
            tokens: _tokens,
            cells: _cells,
            homes: _homes,
            strays: _strays,
            exit: _exit,
        } = self;
    }
}

/// The elements of the array of a queue; none where the unit has no queue.
fn queue_elements(cells: &Vec<Cell>, unit: u32) -> &[u64]
    ensures { result.now ≡ queue_array (get_or cells.now.items unit Plain) }
{
    let at = unit as usize;
    if at < cells.len() {
        cells[at].elements()
    } else {
        &[]
    }
}

/// The elements of each array.
///
/// # Errors
///
/// [`Memory`] where memory is wanting.
fn array_lists(alloc: Global, homes: &[Home], cells: &Vec<Cell>) -> Result<List<List<u64>>, Memory>
    ensures { IfOk result (λ l. l ≡ map (array_in cells.now.items) homes.now) }
{
    let mut lists = List::new(alloc);
    for home in homes {
        lists.push(list_at(alloc, home, cells)?)?;
    }
    Ok(lists)
}

/// The elements of an array that lies there.
fn list_at(alloc: Global, home: &Home, cells: &Vec<Cell>) -> Result<List<u64>, Memory>
    ensures { IfOk result (λ l. l ≡ array_in cells.now.items home.now) }
{
    match home {
        Home::Here(list) => list.copy(),
        Home::Queue(unit) => joined(alloc, queue_elements(cells, *unit), &[]),
    }
}

impl State {
    /// The opening state of a net on inputs. It takes all memory of a run.
    ///
    /// # Errors
    ///
    /// [`Memory`] where memory is wanting.
    pub fn new(alloc: Global, net: &Checked, inputs: &Inputs) -> Result<State, Memory>
        requires { InputsFit net.now inputs.now }
        ensures of { IfOk result (λ s. IsOf net.now s) }
        ensures state { IfOk result (λ s. state_of s ≡ opening net.now inputs.now) }
        ensures counts { IfOk result (λ s. CountsWithin 0 (state_of s)) }
        ensures dates { IfOk result
            (λ s. dates_of s ≡ map (λ (c : ChanValue). []) net.now.chans) }
    {
        let mut state = State::without_channels(alloc, net, inputs)?;
        state.tokens = Tokens::new(alloc, net.net().chans.as_slice())?;
        Ok(state)
    }

    /// What the opening state of a net on inputs has beside its channels: it has none. No firing is to be made in it.
    ///
    /// # Errors
    ///
    /// [`Memory`] where memory is wanting.
    pub fn without_channels(alloc: Global, net: &Checked, inputs: &Inputs) -> Result<State, Memory>
        requires { InputsFit net.now inputs.now }
        ensures of { IfOk result (λ s. IsOf net.now (with_slots (slots_in net.now) s)) }
        ensures state { IfOk result
            (λ s. state_of (with_slots (slots_in net.now) s) ≡ opening net.now inputs.now) }
        ensures none { IfOk result HasNoChannels }
    {
        let units = net.net().units.as_slice();
        let arrays = inputs.arrays.as_slice();
        let tokens = Tokens::new(alloc, &[])?;
        let cells = fresh_cells(alloc, units, arrays)?;
        let owners = owners(alloc, units, arrays.len())?;
        let homes = homes(alloc, owners.as_slice(), arrays)?;
        let strays = vec![in alloc; 0; arrays.len()]?;
        let scalars = inputs.scalars.copy()?;
        let exit = exit_of(units);
        Ok(State {
            scalars,
            tokens,
            cells,
            homes,
            strays,
            exit,
        })
    }

    /// The state of a net that is given as plain data. It takes all memory of a run.
    ///
    /// # Errors
    ///
    /// [`Memory`] where memory is wanting.
    pub fn from_parts(alloc: Global, net: &Checked, parts: &Parts) -> Result<State, Memory>
        requires { Stands net.now parts.now }
        ensures of { IfOk result (λ s. IsOf net.now s) }
        ensures state { IfOk result (λ s. state_of s ≡ state_from net.now parts.now) }
    {
        let mut state = State::new(alloc, net, &parts.given)?;
        state.restore(net, parts);
        Ok(state)
    }

    /// Puts data into an opening state. It takes no memory.
    fn restore(&mut self, net: &Checked, parts: &Parts)
        requires of { IsOf net.now self.old }
        requires opening { state_of self.old ≡ opening net.now parts.now.given }
        requires undated { dates_of self.old ≡ map (λ (c : ChanValue). []) net.now.chans }
        requires stands { Stands net.now parts.now }
        ensures of { IsOf net.now self.new }
        ensures state { state_of self.new ≡ state_from net.now parts.now }
    {
        self.tokens.fill(parts.tokens.as_slice());
        restore_cells(&mut self.cells, net.net().units.as_slice(), parts);
        self.strays.copy_from_slice(parts.strays.as_slice());
    }

    /// The state as plain data, in the one form that they have.
    ///
    /// # Errors
    ///
    /// [`Memory`] where memory is wanting.
    pub fn parts(&self, alloc: Global, net: &Checked) -> Result<Parts, Memory>
        requires { IsOf net.now self.now }
        ensures state { IfOk result (λ p. state_from net.now p ≡ state_of self.now) }
        ensures form { IfOk result (IsByUnit net.now) }
    {
        let _ = net.net();
        let cells = self.cells.as_slice();
        let scalars = self.scalars.copy()?;
        let arrays = array_lists(alloc, self.homes.as_slice(), &self.cells)?;
        let tokens = self.tokens.lists(alloc)?;
        let sent = sent_parts(alloc, cells)?;
        let fired = fired_flags(alloc, cells)?;
        let queues = queue_parts(alloc, cells)?;
        let strays = joined(alloc, self.strays.as_slice(), &[])?;
        let value = self.value();
        Ok(Parts {
            given: Inputs { scalars, arrays },
            tokens,
            sent,
            fired,
            value,
            queues,
            strays,
        })
    }

    /// Where an array of the header lies; `None` past the arrays.
    #[inline(always)]
    pub fn home(&self, array: u32) -> Option<&Home>
        ensures { MatchOption result (length (homes_of self.now) ≤ array)
            (λ h. (array < length (homes_of self.now)) × (h.now ≡ home_at self.now array)) }
    {
        self.homes.get(array as usize)
    }

    /// What a unit keeps; `None` past the units.
    #[inline(always)]
    pub fn cell(&self, unit: u32) -> Option<&Cell>
        ensures { MatchOption result (length self.now.cells.items ≤ unit)
            (λ c. (unit < length self.now.cells.items) × (c.now ≡ cell_at self.now unit)) }
    {
        self.cells.get(unit as usize)
    }

    /// The scalars of the inputs.
    #[inline(always)]
    pub fn scalars(&self) -> &[u64]
        ensures { result.now ≡ (state_of self.now).scalars }
    {
        self.scalars.as_slice()
    }

    /// The number of the exit among the units.
    #[inline(always)]
    pub fn exit(&self) -> u32
        ensures { result ≡ exit_at self.now }
    {
        self.exit
    }

    /// The elements of an array; none of an array that is not there.
    #[inline(always)]
    pub fn elements(&self, array: u32) -> &[u64]
        ensures { result.now ≡ get_or (arrays_of self.now) array [] }
    {
        let at = array as usize;
        if at < self.homes.len() {
            match &self.homes[at] {
                Home::Here(list) => list.as_slice(),
                Home::Queue(unit) => queue_elements(&self.cells, *unit),
            }
        } else {
            &[]
        }
    }

    /// The elements of the array that a unit works on.
    #[inline(always)]
    pub(crate) fn used(&self, unit: &Unit) -> &[u64]
        ensures { result.now ≡ at_array (arrays_of self.now) (uses unit.now) }
    {
        match unit {
            Unit::Read(array) => self.elements(*array),
            Unit::Lsq { array, .. } => self.elements(*array),
            _ => &[],
        }
    }

    /// The elements of an array of the header, as the firings so far left them.
    pub fn arrays(&self, net: &Checked, array: u32) -> &[u64]
        requires of { IsOf net.now self.now }
        requires within { array < length net.now.arrays }
        ensures { result.now ≡ elements_at (state_of self.now) array }
    {
        let _ = net;
        self.elements(array)
    }

    /// How many addresses lay past an array of the header. It costs one step.
    pub fn strays(&self, array: u32) -> u64
        ensures { result ≡ strays_at (state_of self.now) array }
    {
        let at = array as usize;
        if at < self.strays.len() {
            self.strays[at]
        } else {
            0
        }
    }

    /// The oldest token of a channel, where it has one.
    #[inline(always)]
    pub fn head(&self, net: &Checked, chan: u32) -> Option<u64>
        requires { IsOf net.now self.now }
        ensures { result ≡ first (tokens_at (state_of self.now) chan) }
    {
        let _ = net;
        self.tokens.head(chan)
    }

    /// The date of the oldest token of a channel of the net, where it has one: the cycle in which it was put, 0 where none was told.
    #[inline(always)]
    pub fn date(&self, net: &Checked, chan: u32) -> Option<u64>
        requires of { IsOf net.now self.now }
        requires within { chan < length net.now.chans }
        ensures { result ≡ first (get_or (dates_of self.now) chan []) }
    {
        let _ = net;
        self.tokens.date(chan)
    }

    /// The date of the newest token of a channel of the net, where it has one.
    #[inline(always)]
    pub fn newest_date(&self, net: &Checked, chan: u32) -> Option<u64>
        requires of { IsOf net.now self.now }
        requires within { chan < length net.now.chans }
        ensures { result ≡ last_item (get_or (dates_of self.now) chan []) }
    {
        let _ = net;
        self.tokens.newest_date(chan)
    }

    /// How many tokens a channel of the net has.
    pub fn held(&self, net: &Checked, chan: u32) -> u32
        requires of { IsOf net.now self.now }
        requires within { chan < length net.now.chans }
        ensures { result ≡ length (tokens_at (state_of self.now) chan) }
    {
        let _ = net.net();
        self.tokens.held(chan)
    }

    /// The queue of a unit of the net, where it has one.
    #[inline(always)]
    pub fn queue(&self, net: &Checked, unit: u32) -> Option<&UnitQueue>
        requires of { IsOf net.now self.now }
        requires within { unit < length net.now.units }
        ensures { MatchOption result (is_lsq (kind_of net.now unit) ≡ false)
            (λ q. IsQueueAt net.now self.now unit q.now) }
    {
        let _ = net;
        match &self.cells[unit as usize] {
            Cell::Queue(queue) => Some(queue),
            _ => None,
        }
    }

    /// Whether the exit has fired. It costs one step.
    pub fn exited(&self) -> bool
        ensures { (net : Net) → IsOf net self.now
            → (IsTrue result ↔ HasExited net (state_of self.now)) }
    {
        let at = self.exit as usize;
        if at < self.cells.len() {
            self.cells[at].fired()
        } else {
            false
        }
    }

    /// The result that the exit took, where it took one. It costs one step.
    pub fn value(&self) -> Option<u64>
        ensures { (net : Net) → IsOf net self.now → TookAtExit net (state_of self.now) result }
    {
        let at = self.exit as usize;
        if at < self.cells.len() {
            self.cells[at].value()
        } else {
            None
        }
    }

    /// Whether a unit has room where it puts a token.
    #[inline(always)]
    pub fn has_room(&self, net: &Checked, unit: u32, put: Option<Put>) -> bool
        requires { IsOf net.now self.now }
        ensures { IsTrue result ↔ has_room net.now (state_of self.now) unit put }
    {
        match put {
            None => true,
            Some(put) => self.tokens.has_room(net.out_of_place(unit, put.place)),
        }
    }

    /// Whether a channel has fewer tokens than slots; none past the channels has. It costs one step.
    #[inline(always)]
    pub fn has_room_on(&self, net: &Checked, chan: u32) -> bool
        requires { IsOf net.now self.now }
        ensures { IsTrue result
            ↔ length (tokens_at (state_of self.now) chan) < (chan_at net.now chan).slots }
    {
        let _ = net;
        self.tokens.has_room(chan)
    }

    /// Whether a channel of the net has as many tokens as slots. It costs one step.
    #[inline(always)]
    pub fn is_full(&self, net: &Checked, chan: u32) -> bool
        requires of { IsOf net.now self.now }
        requires within { chan < length net.now.chans }
        ensures { IsTrue result
            ↔ (chan_at net.now chan).slots ≤ length (tokens_at (state_of self.now) chan) }
    {
        let _ = net;
        self.tokens.is_full(chan)
    }

    /// Whether a firing is enabled.
    pub fn enabled(&self, net: &Checked, firing: Firing) -> bool
        requires { IsOf net.now self.now }
        ensures { IsTrue result ↔ enabled net.now (state_of self.now) firing }
    {
        match self.plan(net, firing) {
            None => false,
            Some(plan) => self.has_room(net, firing.unit, plan.put),
        }
    }

    /// Makes a planned firing that has room.
    #[inline(always)]
    pub fn make(&mut self, net: &Checked, firing: Firing, plan: Plan)
        requires of { IsOf net.now self.old }
        requires effect { IsPlanOf net.now self.old firing (Some plan) }
        requires apart { apart plan.takes ≡ true }
        requires admits { admits (cell_at self.old firing.unit) plan.change ≡ true }
        requires room { has_room net.now (state_of self.old) firing.unit plan.put }
        requires counts { CountsWithin (2 ^ 62) (state_of self.old) }
        ensures of { IsOf net.now self.new }
        ensures state { state_of self.new ≡ after net.now (state_of self.old) firing }
        ensures counts { CountsRise max_depth (state_of self.old) (state_of self.new) }
    {
        self.make_moves(net, firing, plan, moves_of(net, firing.unit, &plan));
    }

    /// Makes a planned firing that has room, by its moves.
    #[inline(always)]
    pub fn make_moves(&mut self, net: &Checked, firing: Firing, plan: Plan, moves: Moves)
        requires of { IsOf net.now self.old }
        requires effect { IsPlanOf net.now self.old firing (Some plan) }
        requires moves { moves ≡ moves_of net.now firing.unit plan }
        requires apart { apart plan.takes ≡ true }
        requires admits { admits (cell_at self.old firing.unit) plan.change ≡ true }
        requires room { has_room net.now (state_of self.old) firing.unit plan.put }
        requires counts { CountsWithin (2 ^ 62) (state_of self.old) }
        ensures of { IsOf net.now self.new }
        ensures state { state_of self.new ≡ after net.now (state_of self.old) firing }
        ensures counts { CountsRise max_depth (state_of self.old) (state_of self.new) }
    {
        self.make_dated(net, firing, plan, moves, 0);
    }

    /// Makes a planned firing that has room, by its moves, in the cycle that is the date of what it puts.
    #[inline(always)]
    pub fn make_dated(&mut self, net: &Checked, firing: Firing, plan: Plan, moves: Moves, date: u64)
        requires of { IsOf net.now self.old }
        requires effect { IsPlanOf net.now self.old firing (Some plan) }
        requires moves { moves ≡ moves_of net.now firing.unit plan }
        requires apart { apart plan.takes ≡ true }
        requires admits { admits (cell_at self.old firing.unit) plan.change ≡ true }
        requires room { has_room net.now (state_of self.old) firing.unit plan.put }
        requires counts { CountsWithin (2 ^ 62) (state_of self.old) }
        ensures of { IsOf net.now self.new }
        ensures state { state_of self.new ≡ after net.now (state_of self.old) firing }
        ensures counts { CountsRise max_depth (state_of self.old) (state_of self.new) }
        ensures dates { dates_of self.new
            ≡ laid_on (dated_laid date moves.laid)
            (taken_all (chans_of moves.taken) (dates_of self.old)) }
    {
        self.tokens.make(moves, date);
        let stray = change_cell(&mut self.cells, firing.unit, plan.change);
        count_strays(&mut self.strays, net, firing.unit, stray);
        let _ = net.net();
    }

    /// Puts a token on a channel that has room, beside any firing. It takes no memory.
    #[inline(always)]
    pub fn put_token(&mut self, net: &Checked, chan: u32, value: u64)
        requires of { IsOf net.now self.old }
        requires room { length (tokens_at (state_of self.old) chan) < (chan_at net.now chan).slots }
        ensures of { IsOf net.now self.new }
        ensures state { state_of self.new ≡ with_tokens
            (put_at_end chan value (state_of self.old).tokens) (state_of self.old) }
    {
        let _ = net;
        self.tokens.put(chan, value, 0);
    }

    /// Takes the oldest token of a channel of the net, beside any firing.
    #[inline(always)]
    pub fn take_token(&mut self, net: &Checked, chan: u32)
        requires of { IsOf net.now self.old }
        requires within { chan < length net.now.chans }
        ensures of { IsOf net.now self.new }
        ensures state { state_of self.new ≡ with_tokens
            (take_at chan (state_of self.old).tokens) (state_of self.old) }
    {
        let _ = net;
        self.tokens.take(chan);
    }

    /// Makes a firing. It takes no memory.
    pub fn fire(&mut self, net: &Checked, firing: Firing)
        requires of { IsOf net.now self.old }
        requires enabled { enabled net.now (state_of self.old) firing }
        requires counts { CountsWithin (2 ^ 62) (state_of self.old) }
        ensures of { IsOf net.now self.new }
        ensures state { state_of self.new ≡ after net.now (state_of self.old) firing }
        ensures counts { CountsRise max_depth (state_of self.old) (state_of self.new) }
    {
        if let Some(plan) = self.plan(net, firing) {
            self.make(net, firing, plan);
        }
    }

    /// Makes a firing where it is enabled, and tells whether it was. It takes no memory.
    pub fn try_fire(&mut self, net: &Checked, firing: Firing) -> bool
        requires of { IsOf net.now self.old }
        requires counts { CountsWithin (2 ^ 62) (state_of self.old) }
        ensures fired { IsTrue result ↔ enabled net.now (state_of self.old) firing }
        ensures of { IsOf net.now self.new }
        ensures state { state_of self.new
            ≡ after_where result net.now (state_of self.old) firing }
        ensures counts { CountsRise max_depth (state_of self.old) (state_of self.new) }
    {
        match self.plan(net, firing) {
            None => false,
            Some(plan) => {
                if !self.has_room(net, firing.unit, plan.put) {
                    return false;
                }
                self.make(net, firing, plan);
                true
            }
        }
    }
}
