//! The lifelines of a chart.
ghost use Rattle.std.specs.Prelude.{◌≡◌, ◌+◌, ◌≤◌, ℕ, Bool, List, length, slice_get, option_copied, IfNone, IfOk, IfSome, IsTrue, OnOk, false};
ghost use Rattle.std.specs.List.{list_any};
ghost use Rattle.tb_chart.specs.Helpers.Additions.{Adds, AddsTool, OnlyPlayers, Puts, SamePlaces, Sound, is_seat, is_seat_in};
ghost use Rattle.tb_chart.specs.Lifelines.{HasFirst, HasOnly, IsOnlyColumn, Once, columns, has_line, has_process, is_known, is_line_of, is_process, is_tool, is_tool_in, notes_count, place_of, spot_at, spot_behind};
ghost use Rattle.tb_chart.specs.Numbers.{numbered};
ghost use Rattle.tb_chart.specs.declared.row.Who.{Who};

use crate::cast::{index_of, numbered};
use crate::row::{Seat, Who};
use crate::scene::Scene;
use sqlite_items::at;
use std::alloc::Global;
use tb_terms::NoMemory;

/// The lifeline of a process.
#[derive(Clone, Copy)]
pub struct ProcessLine {
    pub number: u32,
    /// Its definition, from 0.
    pub body: u32,
}

/// A lifeline, by its index among those of its kind.
#[derive(Clone, Copy)]
pub enum Spot {
    Process(usize),
    Notes,
    Tool(usize),
}

/// Lifelines: those of processes, perhaps one of notes, and those of tools. One lifeline serves for all tools of one kind on one lane.
#[derive(Drop)]
pub struct Lines {
    pub processes: Vec<ProcessLine>,
    pub has_notes: bool,
    pub tools: Vec<Seat>,
    /// For each process by its number, from 1, where its lifeline is, if it has one.
    places: Vec<Option<usize>>,
}

impl Lines {
    pub(crate) fn new(alloc: Global) -> Lines
        ensures sound { (players : List ℕ) → Sound players result }
        ensures only { (test : Who → Bool) → HasOnly test result }
    {
        Lines {
            processes: Vec::new(alloc),
            has_notes: false,
            tools: Vec::new(alloc),
            places: Vec::new(alloc),
        }
    }

    /// Returns the number of lifelines.
    pub fn columns(&self) -> usize
        ensures { result ≡ columns self.now }
    {
        self.first_tool().saturating_add(self.tools.len())
    }

    /// Returns the column of a lifeline: first the processes, then the notes, then the tools.
    pub fn column(&self, who: Who) -> usize
        ensures at { IsTrue (has_line self.now who)
            → IsTrue (is_line_of self.now who (spot_at self.now result)) }
        ensures only { Once self.now → IsTrue (is_known who) → IsTrue (has_line self.now who)
            → IsOnlyColumn self.now who result }
    {
        match who {
            Who::Process(number) => self.process_place(number).unwrap_or(0),
            Who::Notes => self.processes.len(),
            Who::Tool(seat) => self
                .first_tool()
                .saturating_add(tool_place(self.tools.as_slice(), seat)),
        }
    }

    /// Returns the lifeline of a column.
    pub fn spot_at(&self, column: usize) -> Spot
        ensures { result ≡ spot_at self.now column }
    {
        match column.checked_sub(self.processes.len()) {
            None => Spot::Process(column),
            Some(behind) => spot_behind(self.has_notes, behind),
        }
    }

    fn first_tool(&self) -> usize
        ensures { result ≡ length self.now.processes.items + notes_count self.now }
    {
        self.processes
            .len()
            .saturating_add(usize::from(self.has_notes))
    }

    fn process_place(&self, number: u32) -> Option<usize>
        ensures { result ≡ place_of self.now.places.items number }
    {
        match numbered(self.places.as_slice(), u64::from(number)) {
            Some(place) => *place,
            None => None,
        }
    }

    /// Whether the process with this number has a lifeline.
    fn has_process(&self, number: u32) -> bool
        ensures { result
            ≡ has_process self.now.processes.items self.now.places.items number }
    {
        match self.process_place(number) {
            Some(place) => is_process(number, at(self.processes.as_slice(), place)),
            None => false,
        }
    }

    /// Adds the lifeline of this one, if it isn't there.
    #[tactic(auto, using(crate::proofs::LineLemmas::added_tool, crate::proofs::LineLemmas::adds_tool, crate::proofs::LineLemmas::adds_notes))]
    pub(crate) fn add(&mut self, who: Who, scene: &Scene) -> Result<(), NoMemory>
        ensures { OnOk result (Adds scene.now.players.items who self.old self.new) }
    {
        match who {
            Who::Process(number) => self.add_process(number, scene),
            Who::Tool(seat) => add_tool(&mut self.tools, seat),
            Who::Notes => {
                self.has_notes = true;
                Ok(())
            }
        }
    }

    #[tactic(auto, using(crate::proofs::LineLemmas::adds_same, crate::proofs::LineLemmas::adds_nobody))]
    pub(crate) fn add_process(&mut self, number: u32, scene: &Scene) -> Result<(), NoMemory>
        ensures { OnOk result
            (Adds scene.now.players.items (Who.Process number) self.old self.new) }
    {
        if self.has_process(number) {
            return Ok(());
        }
        match scene.body_of(number) {
            Some(body) => {
                put_place(&mut self.places, number, self.processes.len())?;
                self.processes.push(ProcessLine { number, body })?;
                Ok(())
            }
            None => Ok(()),
        }
    }
}

/// Adds the lifeline of each process that is there.
pub(crate) fn add_players(lines: &mut Lines, scene: &Scene) -> Result<(), NoMemory>
    ensures there { OnOk result (HasFirst (length scene.now.players.items) lines.new) }
    ensures sound { OnOk result (Sound scene.now.players.items lines.old
        → Sound scene.now.players.items lines.new) }
    ensures only { OnOk result
        (OnlyPlayers (length scene.now.players.items) lines.old lines.new) }
{
    for index in 0..scene.count() {
        lines.add_process(number_at(index)?, scene)?;
    }
    Ok(())
}

/// The number of the process at a position. No process has a number from 2^32 on, and there is memory for no such lifeline.
fn number_at(index: usize) -> Result<u32, NoMemory>
    ensures { IfOk result (λ number. number ≡ index + 1) }
{
    match u32::try_from(index.saturating_add(1)) {
        Ok(number) => Ok(number),
        Err(_) => Err(NoMemory),
    }
}

/// The lifeline behind those of the processes.
fn spot_behind(has_notes: bool, column: usize) -> Spot
    ensures { result ≡ spot_behind has_notes column }
{
    match column.checked_sub(usize::from(has_notes)) {
        Some(index) => Spot::Tool(index),
        None => Spot::Notes,
    }
}

/// Whether the lifeline is that of the process with this number.
fn is_process(number: u32, line: Option<&ProcessLine>) -> bool
    ensures { result ≡ is_process number (option_copied line.entry) }
{
    match line {
        Some(line) => line.number == number,
        None => false,
    }
}

/// Sets where the lifeline of a process is.
#[tactic(auto, using(crate::proofs::PlaceLemmas::puts_after))]
fn put_place(places: &mut Vec<Option<usize>>, number: u32, line: usize) -> Result<(), NoMemory>
    ensures { OnOk result (Puts number line places.old.items places.new.items) }
{
    fill_places(places, number)?;
    set_place(places.as_mut_slice(), number, line);
    Ok(())
}

/// Makes room for the place of a process.
#[tactic(auto, using(crate::proofs::PlaceLemmas::place_push))]
fn fill_places(places: &mut Vec<Option<usize>>, number: u32) -> Result<(), NoMemory>
    ensures same { OnOk result (SamePlaces places.old.items places.new.items) }
    ensures long { OnOk result (number ≤ length places.new.items) }
{
    while places.len() < number as usize {
        places.push(None)?;
    }
    Ok(())
}

/// Sets a place that there is room for. Nothing has the number 0.
fn set_place(places: &mut [Option<usize>], number: u32, line: usize)
    requires { number ≤ length places.old }
    ensures { Puts number line places.old places.new }
{
    match index_of(u64::from(number)) {
        Some(index) => places[index] = Some(line),
        None => {}
    }
}

/// Adds the lifeline of a tool. A program that had no name yet keeps its lifeline.
fn add_tool(tools: &mut Vec<Seat>, seat: Seat) -> Result<(), NoMemory>
    ensures { OnOk result (AddsTool seat tools.old.items tools.new.items) }
{
    if has_tool(tools.as_slice(), seat) {
        return Ok(());
    }
    let unnamed = Seat {
        lane: seat.lane,
        kind: None,
    };
    match find_seat(tools.as_slice(), unnamed) {
        Some(index) => {
            if let Some(line) = tools.get_mut(index) {
                *line = seat;
            }
            Ok(())
        }
        None => {
            tools.push(seat)?;
            Ok(())
        }
    }
}

/// Where the lifeline of a tool is, or 0. A program that has no name yet is on the first lifeline of its lane.
fn tool_place(tools: &[Seat], seat: Seat) -> usize
    ensures { IsTrue (list_any (is_tool seat) tools.now)
        → IsTrue (is_tool_in seat (slice_get tools.now result)) }
{
    for (index, line) in tools.iter().enumerate() {
        if is_tool(seat, *line) {
            return index;
        }
    }
    0
}

/// Whether a lifeline is that of this tool.
fn has_tool(lines: &[Seat], seat: Seat) -> bool
    ensures { result ≡ list_any (is_tool seat) lines.now }
{
    for line in lines {
        if is_tool(seat, *line) {
            return true;
        }
    }
    false
}

/// The index of the lifeline with this very lane and name.
fn find_seat(lines: &[Seat], seat: Seat) -> Option<usize>
    ensures some { IfSome result (λ index. IsTrue (is_seat_in seat (slice_get lines.now index))) }
    ensures none { IfNone result (list_any (is_seat seat) lines.now ≡ false) }
{
    for (index, line) in lines.iter().enumerate() {
        if is_seat(seat, *line) {
            return Some(index);
        }
    }
    None
}

/// Whether the lifeline is that of this tool.
fn is_seat(seat: Seat, line: Seat) -> bool
    ensures { result ≡ is_seat seat line }
{
    line.lane == seat.lane && line.kind == seat.kind
}

/// Whether the lifeline is that of this tool, or of a program that has no name yet on its lane.
fn is_tool(seat: Seat, line: Seat) -> bool
    ensures { result ≡ is_tool seat line }
{
    line.lane == seat.lane && (seat.kind.is_none() || line.kind == seat.kind)
}
