//! Who is there as a log goes on: the processes, the tools and their lanes.
ghost use Rattle.std.specs.Prelude.{◌≡◌, ◌<◌, ◌≤◌, ◌^◌, ℕ, [], None, Some, Bool, false, length, IsTrue, IfOk, IfNone, IfSome, OnOk};
ghost use Rattle.tb_chart.specs.Helpers.Additions.{AddsSeat, Follows, HasNoTool, HasEnds, HasNumber, IfNo, IfYes, IsAbsentIn, IsThere, Keeps, LacksEndIn, LacksNumber, Passes, are_players, is_player, seat_of};
ghost use Rattle.tb_chart.specs.Ends.{fits, is_at};
ghost use Rattle.tb_chart.specs.Numbers.{numbered};
ghost use Rattle.tb_chart.specs.Players.{bodies_of, created_by};
ghost use Rattle.tb_chart.specs.Named.{are_named, is_named, tool_fits};
ghost use Rattle.tb_chart.specs.Refused.{is_lane};
ghost use Rattle.tb_chart.specs.Terms.{creates, is_declared, is_number};
ghost use Rattle.tb_chart.specs.Tools.{first_number, number_in, tool_name, tool_number};
ghost use Rattle.tb_terms.specs.declared.term.Term.{out-Term};
ghost use Rattle.tb_log.specs.Shapes.{lane_count};
ghost use Rattle.std.specs.List.{list_any};
ghost use Rattle.std.specs.Str.{bytes_eq};

use crate::cast::{Cast, index_of, numbered};
use crate::figure::End;
use crate::lane::{Lane, Turn, UNUSED};
use crate::named::{is_declared, speaks_of};
use crate::row::{Seat, Who};
use std::alloc::Global;
use tb_log::{Entry, Input, LANES, Label, LabelKind, Out, Reply, ToolLine};
use tb_terms::{NoMemory, Term};

/// The processes by their numbers, the tools by theirs, and the lanes.
#[derive(Drop)]
pub(crate) struct Scene<'a> {
    cast: &'a Cast,
    /// The definition of each process.
    players: Vec<u32>,
    seats: Vec<Seat>,
    lanes: Vec<Lane>,
}

impl<'a> Scene<'a> {
    /// The scene at the start, with so many commands on the first lanes.
    pub(crate) fn new(alloc: Global, cast: &'a Cast, commands: usize) -> Result<Scene<'a>, NoMemory>
        ensures players { IfOk result (λ scene. scene.players.items ≡ cast.now.roots.items) }
        ensures cast { IfOk result (λ scene. scene.cast.now ≡ cast.now) }
        ensures lanes { IfOk result (λ scene. length scene.lanes.items ≡ lane_count) }
        ensures seats { IfOk result (λ scene. scene.seats.items ≡ []) }
    {
        Ok(Scene {
            cast,
            players: roots(alloc, cast)?,
            seats: Vec::new(alloc),
            lanes: first_lanes(alloc, commands)?,
        })
    }

    /// Goes on by an entry. Returns false if something is wrong with the entry apart from its ends, or if it is an `execute` and no lane is
    /// free.
    #[tactic(auto, using(crate::proofs::SceneLemmas::follows_kept, crate::proofs::SceneLemmas::follows_gave, crate::proofs::PassLemmas::passes, crate::proofs::PassLemmas::passes_gave))]
    pub(crate) fn follow(&mut self, entry: &Entry) -> Result<bool, NoMemory>
        ensures goes { IfOk result (Follows entry.now self.old self.new) }
        ensures right { IfOk result (λ ok. IfYes ok (Passes self.old entry.now)) }
    {
        match entry {
            Entry::Did(label) => self.follow_step(label),
            Entry::Fed(input, Reply::Took) => self.follow_input(input),
            Entry::Gave(lane, out) => Ok(self.turn(*lane, sent(out))),
            Entry::Quiet | Entry::Fed(_, Reply::Dropped(_)) => Ok(true),
        }
    }

    /// Returns who is at these ends of what is shown of an entry, if they are there.
    #[tactic(auto, using(crate::proofs::SceneLemmas::lacks_first, crate::proofs::SceneLemmas::lacks_second, crate::proofs::PassLemmas::no_ends, crate::proofs::PassLemmas::both_there))]
    pub(crate) fn ends(&self, ends: Option<(End, End)>, entry: &Entry) -> Option<Option<(Who, Who)>>
        ensures fit { IfSome result (λ found. IsTrue (fits entry.now ends found)) }
        ensures are { IfSome result
            (λ found. IsTrue (are_players self.now.players.items found)) }
        ensures named { IfSome result
            (λ found. IsTrue (are_named self.now.cast.now.tools.items entry.now ends found)) }
        ensures none { IfNone result (LacksEndIn self.now entry.now ends) }
        ensures there { IfSome result (λ found. HasEnds self.now entry.now ends) }
    {
        match ends {
            None => Some(None),
            Some((from, to)) => {
                let from = self.who(from, entry)?;
                let to = self.who(to, entry)?;
                Some(Some((from, to)))
            }
        }
    }

    /// Returns who is at this end of what is shown of an entry, if it is there.
    #[tactic(auto, using(crate::proofs::PassLemmas::process_there, crate::proofs::PassLemmas::child_there, crate::proofs::PassLemmas::program_there, crate::proofs::PassLemmas::notes_there))]
    fn who(&self, end: End, entry: &Entry) -> Option<Who>
        ensures at { IfSome result (λ found. IsTrue (is_at entry.now end found)) }
        ensures is { IfSome result (λ found. IsTrue (is_player self.now.players.items found)) }
        ensures named { IfSome result
            (λ found. IsTrue (is_named self.now.cast.now.tools.items entry.now end found)) }
        ensures none { IfNone result (IsAbsentIn self.now entry.now end) }
        ensures there { IfSome result (λ found. IsThere self.now entry.now end) }
    {
        match end {
            End::Process(number) => self.process(number),
            End::Child => match child_number(entry) {
                Some(number) => self.process(number),
                None => None,
            },
            End::Tool => self.tool(entry),
            End::Lane(lane) => self.program(lane),
            End::Notes => Some(Who::Notes),
        }
    }

    /// Returns the tool that a step names, if there is one with this number and name.
    #[tactic(auto, using(crate::proofs::SeatLemmas::no_seat, crate::proofs::SeatLemmas::no_name, crate::proofs::PassLemmas::tool_there))]
    fn tool(&self, entry: &Entry) -> Option<Who>
        ensures at { IfSome result (λ found. IsTrue (is_at entry.now End.Tool found)) }
        ensures is { IfSome result (λ found. IsTrue (is_player self.now.players.items found)) }
        ensures named { IfSome result
            (λ found. IsTrue (tool_fits self.now.cast.now.tools.items entry.now found)) }
        ensures none { IfNone result (HasNoTool self.now entry.now) }
        ensures there { IfSome result (λ found. IsThere self.now entry.now (End.Tool)) }
    {
        let Entry::Did(label) = entry else {
            return None;
        };
        let Some(seat) = self.seat(label.terms.as_slice()) else {
            return None;
        };
        if speaks_of(self.cast.tools.as_slice(), entry, seat.kind) {
            Some(Who::Tool(seat))
        } else {
            None
        }
    }

    /// Returns the seat of the tool with the number in the first of these terms, if it is there.
    fn seat(&self, terms: &[Term]) -> Option<Seat>
        ensures { result ≡ seat_of self.now.seats.items terms.now }
    {
        match tool_number(terms) {
            Some(number) => match numbered(self.seats.as_slice(), number) {
                Some(seat) => Some(*seat),
                None => None,
            },
            None => None,
        }
    }

    /// Returns the process with this number, if it is there.
    fn process(&self, number: u32) -> Option<Who>
        ensures some { IfSome result (λ found. found ≡ Who.Process number) }
        ensures is { IfSome result (λ found. IsTrue (is_player self.now.players.items found)) }
        ensures none { IfNone result (numbered self.now.players.items number ≡ None) }
    {
        match self.body_of(number) {
            Some(_) => Some(Who::Process(number)),
            None => None,
        }
    }

    /// Returns the program on a lane, if there is such a lane.
    fn program(&self, lane: u8) -> Option<Who>
        ensures at { IfSome result (λ found. IsTrue (is_at (Entry.Quiet) (End.Lane lane) found)) }
        ensures is { IfSome result (λ found. IsTrue (is_player self.now.players.items found)) }
        ensures none { IfNone result (is_lane (length self.now.lanes.items) lane ≡ false) }
        ensures there { IfSome result
            (λ found. IsTrue (is_lane (length self.now.lanes.items) lane)) }
    {
        match numbered(self.lanes.as_slice(), u64::from(lane)) {
            Some(place) => Some(Who::Tool(Seat {
                lane,
                kind: place.kind,
            })),
            None => None,
        }
    }

    #[tactic(auto, using(crate::proofs::SceneLemmas::follows_kept, crate::proofs::SceneLemmas::follows_tool, crate::proofs::PassLemmas::passes, crate::proofs::PassLemmas::passes_turn))]
    fn follow_step(&mut self, label: &Label) -> Result<bool, NoMemory>
        ensures goes { IfOk result (Follows (Entry.Did label.now) self.old self.new) }
        ensures right { IfOk result (λ ok. IfYes ok (Passes self.old (Entry.Did label.now))) }
    {
        match label.kind {
            LabelKind::Create => self.create(label),
            LabelKind::Execute => self.execute(label),
            LabelKind::RecConnect => Ok(self.tool_turn(label, Turn::Take)),
            LabelKind::RecDisconnect => Ok(self.tool_turn(label, Turn::Release)),
            LabelKind::SndEval | LabelKind::SndDo | LabelKind::SndAckEvent => {
                Ok(self.tool_turn(label, Turn::Queue))
            }
            LabelKind::SndTerminate => Ok(self.tool_turn(label, Turn::Terminate)),
            LabelKind::Shutdown | LabelKind::Finish | LabelKind::Halt => {
                self.shut_down();
                Ok(true)
            }
            LabelKind::Msg
            | LabelKind::Set
            | LabelKind::Tau
            | LabelKind::Printf
            | LabelKind::SndNote
            | LabelKind::RecNote
            | LabelKind::NoNote
            | LabelKind::Subscribe
            | LabelKind::Unsubscribe
            | LabelKind::RecValue
            | LabelKind::RecEvent => Ok(true),
        }
    }

    /// A process more. Its number is the next one.
    #[tactic(auto, using(crate::proofs::SceneLemmas::create_fails, crate::proofs::SeatLemmas::seated_kept, crate::proofs::PassLemmas::passes_create))]
    fn create(&mut self, label: &Label) -> Result<bool, NoMemory>
        requires { label.now.kind ≡ LabelKind.Create }
        ensures goes { IfOk result (Follows (Entry.Did label.now) self.old self.new) }
        ensures right { IfOk result (λ ok. IfYes ok (Passes self.old (Entry.Did label.now))) }
    {
        match self.created(label) {
            Some(body) => {
                self.players.push(body)?;
                Ok(true)
            }
            None => Ok(false),
        }
    }

    /// Returns the definition of the process that a step creates.
    fn created(&self, label: &Label) -> Option<u32>
        ensures { result ≡ created_by self.now.cast.now self.now.players.items label.now }
    {
        match self.body_of(label.from.proc) {
            Some(body) => self.cast.created(body, label.from.atom),
            None => None,
        }
    }

    /// Returns the definition of the process with this number.
    pub(crate) fn body_of(&self, number: u32) -> Option<u32>
        ensures { result ≡ numbered self.now.players.items number }
    {
        match numbered(self.players.as_slice(), u64::from(number)) {
            Some(body) => Some(*body),
            None => None,
        }
    }

    /// Returns how many processes there have been.
    pub(crate) fn count(&self) -> usize
        ensures { result ≡ length self.now.players.items }
    {
        self.players.len()
    }

    /// Returns the definitions of the processes that make a step.
    pub(crate) fn bodies(&self, entry: &Entry) -> (Option<u32>, Option<u32>)
        ensures { result ≡ bodies_of self.now.players.items entry.now }
    {
        match entry {
            Entry::Did(label) => (self.body_of(label.from.proc), self.body_of(label.to.proc)),
            Entry::Quiet | Entry::Fed(_, _) | Entry::Gave(_, _) => (None, None),
        }
    }

    /// A tool more, on the lowest free lane.
    #[tactic(auto, using(crate::proofs::SceneLemmas::follows_execute, crate::proofs::SceneLemmas::execute_fails))]
    fn execute(&mut self, label: &Label) -> Result<bool, NoMemory>
        requires { label.now.kind ≡ LabelKind.Execute }
        ensures goes { IfOk result (Follows (Entry.Did label.now) self.old self.new) }
        ensures right { IfOk result (λ ok. IfYes ok (Passes self.old (Entry.Did label.now))) }
    {
        let (Some(name), Some(lane)) = (tool_name(label), lowest_free(self.lanes.as_slice())) else {
            return Ok(false);
        };
        match self.kind_of(name)? {
            Some(kind) => self.add_seat(lane, kind, Turn::Execute(kind)),
            None => Ok(false),
        }
    }

    #[tactic(auto, using(crate::proofs::SceneLemmas::follows_kept, crate::proofs::SceneLemmas::follows_left, crate::proofs::PassLemmas::passes, crate::proofs::PassLemmas::passes_left))]
    fn follow_input(&mut self, input: &Input) -> Result<bool, NoMemory>
        ensures goes { IfOk result (Follows (Entry.Fed input.now (Reply.Took)) self.old self.new) }
        ensures right { IfOk result
            (λ ok. IfYes ok (Passes self.old (Entry.Fed input.now (Reply.Took)))) }
    {
        match input {
            Input::Line(lane, line) => self.follow_line(*lane, line),
            Input::Gone(lane) => Ok(self.turn(*lane, Turn::Gone)),
            Input::Cut(lane) => Ok(self.turn(*lane, Turn::Clear)),
            Input::Tick | Input::NoTicks => Ok(true),
        }
    }

    #[tactic(auto, using(crate::proofs::SceneLemmas::follows_line, crate::proofs::PassLemmas::passes_line))]
    fn follow_line(&mut self, lane: u8, line: &ToolLine) -> Result<bool, NoMemory>
        ensures goes { IfOk result
            (Follows (Entry.Fed (Input.Line lane line.now) (Reply.Took)) self.old self.new) }
        ensures right { IfOk result (λ ok. IfYes ok
            (Passes self.old (Entry.Fed (Input.Line lane line.now) (Reply.Took)))) }
    {
        match line {
            ToolLine::Connect(name) => self.connect(lane, name.as_bytes()),
            ToolLine::Disconnect => Ok(self.turn(lane, Turn::Clear)),
            ToolLine::Value(_) | ToolLine::Event(_) | ToolLine::Bad => {
                Ok(self.turn(lane, Turn::Nothing))
            }
        }
    }

    #[tactic(auto, using(crate::proofs::SceneLemmas::follows_connect, crate::proofs::SceneLemmas::follows_strange))]
    fn connect(&mut self, lane: u8, name: &[u8]) -> Result<bool, NoMemory>
        ensures goes { IfOk result (Follows
            (Entry.Fed (Input.Line lane (ToolLine.Connect name.now)) (Reply.Took)) self.old
            self.new) }
        ensures right { IfOk result (λ ok. IfYes ok (Passes self.old
            (Entry.Fed (Input.Line lane (ToolLine.Connect name.now)) (Reply.Took)))) }
    {
        match self.kind_of(name)? {
            Some(kind) => self.add_seat(lane, kind, Turn::Connect(kind)),
            None => Ok(false),
        }
    }

    /// Returns the position of the tool that is declared with this name. `Cast::tool` knows the positions of the first 2^32 declarations,
    /// and there is no memory for more.
    fn kind_of(&self, name: &[u8]) -> Result<Option<u32>, NoMemory>
        ensures some { IfOk result (λ kind. IfSome kind (λ kind.
            IsTrue (is_declared self.now.cast.now.tools.items (Some kind) name.now))) }
        ensures none { IfOk result (λ kind. IfNone kind
            (list_any (λ tool. bytes_eq tool name.now) self.now.cast.now.tools.items ≡ false)) }
    {
        match self.cast.tool(name) {
            Some(kind) => {
                if is_declared(self.cast.tools.as_slice(), Some(kind), name) {
                    Ok(Some(kind))
                } else {
                    Err(NoMemory)
                }
            }
            None => Ok(None),
        }
    }

    /// A tool of this kind more, on a lane. Returns whether there is such a lane.
    fn add_seat(&mut self, lane: u8, kind: u32, turn: Turn) -> Result<bool, NoMemory>
        ensures adds { OnOk result
            (AddsSeat (record { lane = lane; kind = Some kind }) self.old self.new) }
        ensures is { IfOk result (λ ok. ok ≡ is_lane (length self.old.lanes.items) lane) }
    {
        self.seats.push(Seat {
            lane,
            kind: Some(kind),
        })?;
        Ok(self.turn(lane, turn))
    }

    /// What a step does on the lane of its tool. Returns whether there is such a tool.
    #[tactic(auto, using(crate::proofs::SeatLemmas::no_number, crate::proofs::SeatLemmas::no_lane, crate::proofs::PassLemmas::number_there))]
    fn tool_turn(&mut self, label: &Label, turn: Turn) -> bool
        ensures keeps { Keeps self.old self.new }
        ensures none { IfNo result (LacksNumber self.old label.now.terms) }
        ensures some { IfYes result (HasNumber self.old label.now.terms) }
    {
        match self.seat(label.terms.as_slice()) {
            Some(seat) => self.turn(seat.lane, turn),
            None => false,
        }
    }

    /// What happens on a lane. Returns whether there is such a lane.
    #[tactic(auto, using(crate::proofs::SeatLemmas::lane_there, crate::proofs::SeatLemmas::lane_absent, crate::proofs::SeatLemmas::lane_zero))]
    fn turn(&mut self, lane: u8, turn: Turn) -> bool
        ensures keeps { Keeps self.old self.new }
        ensures is { result ≡ is_lane (length self.old.lanes.items) lane }
    {
        let Some(index) = index_of(u64::from(lane)) else {
            return false;
        };
        match self.lanes.get_mut(index) {
            Some(place) => {
                *place = place.after(turn);
                true
            }
            None => false,
        }
    }

    fn shut_down(&mut self)
        ensures { Keeps self.old self.new }
    {
        for lane in self.lanes.as_mut_slice() {
            *lane = lane.after(Turn::Down);
        }
    }
}

fn sent(out: &Out) -> Turn {
    match out {
        Out::Start(_) => Turn::Started,
        Out::Line(_) | Out::End => Turn::Sent,
    }
}

/// The roots of a script.
fn roots(alloc: Global, cast: &Cast) -> Result<Vec<u32>, NoMemory>
    ensures { IfOk result (λ players. players.items ≡ cast.now.roots.items) }
{
    let mut players = Vec::new(alloc);
    for root in cast.roots.as_slice() {
        players.push(*root)?;
    }
    Ok(players)
}

/// The lanes, of which so many begin with a command.
fn first_lanes(alloc: Global, commands: usize) -> Result<Vec<Lane>, NoMemory>
    ensures { IfOk result (λ lanes. length lanes.items ≡ lane_count) }
{
    let mut lanes = Vec::new(alloc);
    for index in 0..LANES {
        lanes.push(Lane {
            is_up: index < commands,
            queued: u32::from(index < commands),
            ..UNUSED
        })?;
    }
    Ok(lanes)
}

/// The number of the lowest lane that is free.
fn lowest_free(lanes: &[Lane]) -> Option<u8> {
    let mut number: u8 = 1;
    for lane in lanes {
        if lane.is_free() {
            return Some(number);
        }
        number = number.saturating_add(1);
    }
    None
}

/// The number of the process that a step creates.
fn child_number(entry: &Entry) -> Option<u32>
    ensures some { IfSome result (λ number. IsTrue (creates entry.now number)) }
    ensures none { IfNone result ((number : ℕ) → number < 2 ^ 32
        → creates entry.now number ≡ false) }
{
    let Entry::Did(label) = entry else {
        return None;
    };
    match label.terms.as_slice() {
        [] => None,
        [first, ..] => small_number(first),
    }
}

/// The number that a term is, if it is one below 2^32.
fn small_number(term: &Term) -> Option<u32>
    ensures some { IfSome result (λ number. IsTrue (is_number number term.now)) }
    ensures none { IfNone result ((number : ℕ) → number < 2 ^ 32
        → is_number number term.now ≡ false) }
{
    match positive(term) {
        Some(number) => small(number),
        None => None,
    }
}

fn small(number: u64) -> Option<u32>
    ensures some { IfSome result (λ small. small ≡ number) }
    ensures none { IfNone result (2 ^ 32 ≤ number) }
{
    match u32::try_from(number) {
        Ok(number) => Some(number),
        Err(_) => None,
    }
}

/// The number of the tool that the first of these terms names: the term is the name, with the number.
fn tool_number(terms: &[Term]) -> Option<u64>
    ensures { result ≡ tool_number terms.now }
{
    match terms {
        [Term::Appl(_, parts), ..] => first_number(parts.as_slice()),
        _ => None,
    }
}

fn first_number(terms: &[Term]) -> Option<u64>
    ensures { result ≡ first_number terms.now }
{
    match terms {
        [first, ..] => positive(first),
        [] => None,
    }
}

/// The name of the tool that a step names.
fn tool_name(label: &Label) -> Option<&[u8]>
    ensures { IfSome result (λ name. tool_name label.now.terms ≡ Some name.now) }
{
    match label.terms.as_slice() {
        [Term::Appl(name, _), ..] => Some(name.as_bytes()),
        _ => None,
    }
}

/// The number that a term is.
fn positive(term: &Term) -> Option<u64>
    ensures is { result ≡ number_in (out-Term term.now) }
    ensures some { IfSome result (λ number. IsTrue (is_number number term.now)) }
    ensures none { IfNone result ((number : ℕ) → is_number number term.now ≡ false) }
{
    match term {
        Term::Int(number) => match u64::try_from(*number) {
            Ok(number) => Some(number),
            Err(_) => None,
        },
        _ => None,
    }
}
