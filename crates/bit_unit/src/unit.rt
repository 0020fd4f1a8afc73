//! The stacks, and the statements that open and close groups and zones.
ghost use Rattle.std.specs.Prelude.{◌≡◌, not};
ghost use Rattle.std.specs.List.{list_any};
ghost use Rattle.bit_unit.specs.State.{cleared_unit};
ghost use Rattle.bit_unit.specs.Steps.{Does, group_opened, group_closed, zone_opened, zone_closed, is_zone_off};

use crate::group::{BLANK, Group};
use status_word::{Check, StatusWord};
use std::marker::Model;

/// Why a bracket is refused.
#[derive(Clone, Copy, PartialEq, Eq, Debug)]
pub enum BitFault {
    /// Seven groups are open.
    NestingFull,
    /// No group is open.
    NestingEmpty,
    /// Eight zones are open.
    McrFull,
    /// No zone is open.
    McrEmpty,
}

/// How many groups may be open.
const GROUPS: usize = 7;

/// How many zones may be open.
const ZONES: usize = 8;

/// The open groups, the open zones of the MCR, and whether the MCR is active.
///
/// Both stacks grow downwards: the entries stand behind the free places, the innermost first, and
/// the free places are blank.
#[derive(Clone, Copy, Debug)]
pub struct BitUnit {
    groups: [Group; 7],
    free_groups: usize,
    zones: [bool; 8],
    free_zones: usize,
    active: bool,
}

/// Whether one of these zones saved 0.
fn any_off(zones: &[bool]) -> bool
    ensures { result ≡ list_any not zones.now }
{
    zones.iter().any(|on| !*on)
}

impl Model for BitUnit {
    ghost use Rattle.bit_unit.specs.State.{BitState};

    ghost Value = { BitState };

    ghost use Rattle.bit_unit.specs.Inside.{state_of, IsTidy, inside_of, inside_of-state_of};

    ghost view = { state_of };

    ghost invariant = { IsTidy };

    ghost inverse = { inside_of };

    ghost inverse_ok = { inside_of-state_of };
}

impl BitUnit {
    /// No group and no zone open, and the MCR not active.
    pub fn new() -> BitUnit
        ensures { result ≡ cleared_unit }
    {
        BitUnit {
            groups: [BLANK; 7],
            free_groups: GROUPS,
            zones: [false; 8],
            free_zones: ZONES,
            active: false,
        }
    }

    /// A( and the like. Refused exactly where seven groups are open; then nothing changes.
    pub fn open_group(&mut self, status: &mut StatusWord, how: Check) -> Result<(), BitFault>
        ensures { Does result (group_opened how self.old status.old) (self.old, status.old) (self.new, status.new) }
    {
        if self.free_groups == 0 {
            return Err(BitFault::NestingFull);
        }
        self.free_groups -= 1;
        self.groups[self.free_groups] = Group::save(how, status);
        status.after_bracket();
        Ok(())
    }

    /// `)`. Refused exactly where no group is open; then nothing changes.
    pub fn close_group(&mut self, status: &mut StatusWord) -> Result<(), BitFault>
        ensures { Does result (group_closed self.old status.old) (self.old, status.old) (self.new, status.new) }
    {
        if self.free_groups == GROUPS {
            return Err(BitFault::NestingEmpty);
        }
        self.groups[self.free_groups].close(status);
        self.groups[self.free_groups] = BLANK;
        self.free_groups += 1;
        Ok(())
    }

    /// MCR( saves the RLO. Refused exactly where eight zones are open; then nothing changes.
    pub fn open_mcr(&mut self, status: &mut StatusWord) -> Result<(), BitFault>
        ensures { Does result (zone_opened self.old status.old) (self.old, status.old) (self.new, status.new) }
    {
        if self.free_zones == 0 {
            return Err(BitFault::McrFull);
        }
        self.free_zones -= 1;
        self.zones[self.free_zones] = status.rlo;
        status.after_bracket();
        Ok(())
    }

    /// )MCR. Refused exactly where no zone is open; then nothing changes.
    pub fn close_mcr(&mut self, status: &mut StatusWord) -> Result<(), BitFault>
        ensures { Does result (zone_closed self.old status.old) (self.old, status.old) (self.new, status.new) }
    {
        if self.free_zones == ZONES {
            return Err(BitFault::McrEmpty);
        }
        self.zones[self.free_zones] = false;
        self.free_zones += 1;
        status.after_bracket();
        Ok(())
    }

    /// MCRA where `on`, else MCRD. The status word stays.
    pub fn mcr_area(&mut self, on: bool)
        ensures { self.new ≡ record self.old { active = on } }
    {
        self.active = on;
    }

    /// Whether the MCR is active and an open zone saved 0.
    pub fn zone_off(&self) -> bool
        ensures { result ≡ is_zone_off self.now }
    {
        self.active && any_off(&self.zones[self.free_zones..])
    }
}

impl Default for BitUnit {
    ghost is_default = { λ b. b ≡ cleared_unit };

    fn default() -> BitUnit {
        BitUnit::new()
    }
}
