//! The chart of a log: lifelines, and a row for each entry that it shows.
ghost use Rattle.std.specs.Prelude.{◌≡◌, ◌++◌, ◌∷◌, [], length, All, Bool, IfErr, IfOk, IsTrue, OnOk, map};
ghost use Rattle.tb_chart.specs.Helpers.Additions.{GoesOn, HasEnds, IsEndFault, IsEntryFault, IsRightIn, Sound, Stay, StayNeeded, are_all, are_players};
ghost use Rattle.tb_chart.specs.Ends.{ends_of, fits};
ghost use Rattle.tb_chart.specs.Figures.{figure};
ghost use Rattle.tb_chart.specs.Lifelines.{HasBody, HasFirst, HasLines, HasOnly, Once, have_lines, is_needed};
ghost use Rattle.tb_chart.specs.Named.{NamesTools};
ghost use Rattle.tb_chart.specs.Players.{players_of};
ghost use Rattle.tb_chart.specs.Refused.{AreRight, IsRefused};
ghost use Rattle.tb_chart.specs.declared.row.Who.{Who};
ghost use Rattle.tb_chart.specs.Rows.{is_seen, is_shown, row, seen_row, rows_from, rows_of};

use crate::cast::Cast;
use crate::fault::ChartFault;
use crate::figure::{Figure, ends_of, figure_of};
use crate::lines::{Lines, add_players};
use crate::row::{Row, Who};
use crate::scene::Scene;
use std::alloc::Global;
use tb_log::Entry;
use tb_terms::NoMemory;

/// Which entries a chart shows, by their numbers.
#[derive(Clone, Copy)]
pub struct Span {
    pub from: u64,
    pub to: u64,
    /// Whether each process has a lifeline that the script begins with, even if it does nothing.
    pub all: bool,
}

/// A chart: the lifelines, and the rows in their order.
#[derive(Drop)]
pub struct Chart<'a> {
    pub lines: Lines,
    pub rows: Vec<Row<'a>>,
}

/// Returns the chart of the entries in the span. An entry outside the span has no row, but can be rejected too. `Line` names the first
/// entry that is wrong, or is an `execute` for which no lane is free. Which `execute` that is, no clause states. `commands` is the number
/// of commands with which the bus began.
pub fn chart_of<'a>(
    alloc: Global,
    cast: &Cast,
    commands: usize,
    entries: &'a [Entry],
    span: Span,
) -> Result<Chart<'a>, ChartFault>
    ensures rows { IfOk result (λ chart. map seen_row chart.rows.items
        ≡ rows_from cast.now span cast.now.roots.items 1 entries.now) }
    ensures named { IfOk result (λ chart. All (NamesTools cast.now.tools.items) chart.rows.items) }
    ensures lines { IfOk result (λ chart. All (HasLines chart.lines) chart.rows.items) }
    ensures roots { IfOk result (λ chart.
        IsTrue span.all → HasFirst (length cast.now.roots.items) chart.lines) }
    ensures bodies { IfOk result (λ chart.
        All (HasBody (players_of cast.now entries.now)) chart.lines.processes.items) }
    ensures once { IfOk result (λ chart. Once chart.lines) }
    ensures needed { IfOk result (λ chart. HasOnly
        (is_needed span.all (length cast.now.roots.items) chart.rows.items) chart.lines) }
    ensures err { IfErr result (IsRefused cast.now span entries.now) }
    ensures right { IfOk result
        (λ chart. AreRight cast.now span cast.now.roots.items [] 1 entries.now) }
{
    let mut scene = Scene::new(alloc, cast, commands)?;
    let mut lines = root_lines(alloc, &scene, span.all)?;
    let mut rows = Vec::new(alloc);
    for (index, entry) in entries.iter().enumerate() {
        let number = index as u64 + 1;
        add_entry(&mut scene, &mut lines, &mut rows, number, entry, span)?;
    }
    Ok(Chart { lines, rows })
}

/// No lifeline, or one for each process with which the script begins.
fn root_lines(alloc: Global, scene: &Scene, all: bool) -> Result<Lines, NoMemory>
    ensures roots { IfOk result (λ lines.
        IsTrue all → HasFirst (length scene.now.players.items) lines) }
    ensures sound { IfOk result (λ lines. Sound scene.now.players.items lines) }
    ensures only { IfOk result (λ lines.
        HasOnly (is_needed all (length scene.now.players.items) []) lines) }
{
    let mut lines = Lines::new(alloc);
    if all {
        add_players(&mut lines, scene)?;
        return Ok(lines);
    }
    Ok(lines)
}

/// Goes on by an entry, and adds its row if it is shown.
#[tactic(auto, using(crate::proofs::LineLemmas::sound_goes, crate::proofs::RefusalLemmas::lost_fault, crate::proofs::RefusalLemmas::end_fault, crate::proofs::RightLemmas::right_hidden, crate::proofs::RightLemmas::right_shown))]
fn add_entry<'a>(
    scene: &mut Scene,
    lines: &mut Lines,
    rows: &mut Vec<Row<'a>>,
    number: u64,
    entry: &'a Entry,
    span: Span,
) -> Result<(), ChartFault>
    ensures goes_on { OnOk result (GoesOn entry.now scene.old scene.new) }
    ensures rows { OnOk result (map seen_row rows.new.items
        ≡ map seen_row rows.old.items ++ rows_of span scene.new.players.items number entry.now) }
    ensures named { OnOk result (All (NamesTools scene.old.cast.now.tools.items) rows.old.items
        → All (NamesTools scene.old.cast.now.tools.items) rows.new.items) }
    ensures lines { OnOk result (All (HasLines lines.old) rows.old.items
        → All (HasLines lines.new) rows.new.items) }
    ensures stay { OnOk result (Stay lines.old lines.new) }
    ensures sound { OnOk result (Sound scene.old.players.items lines.old
        → Sound scene.new.players.items lines.new) }
    ensures needed { OnOk result
        (StayNeeded rows.old.items rows.new.items lines.old lines.new) }
    ensures err { IfErr result (IsEntryFault scene.old span number entry.now) }
    ensures right { OnOk result (IsRightIn scene.old span number entry.now) }
{
    if !scene.follow(entry)? {
        return Err(ChartFault::Line(number));
    }
    if !is_shown(span.from, span.to, number, figure_of(entry)) {
        return Ok(());
    }
    add_row(scene, lines, rows, number, entry)
}

/// Whether an entry of this figure has a row.
fn is_shown(from: u64, to: u64, number: u64, figure: Figure) -> bool
    ensures { result ≡ is_shown from to number figure }
{
    from <= number && number <= to && is_seen(figure)
}

fn is_seen(figure: Figure) -> bool
    ensures { result ≡ is_seen figure }
{
    match figure {
        Figure::Arrow(_, _, _) | Figure::Mark(_) | Figure::Stop(_) | Figure::Lost(_) => true,
        Figure::Time | Figure::Rule => true,
        Figure::Hidden => false,
    }
}

/// Adds the row of an entry.
fn add_row<'a>(
    scene: &Scene,
    lines: &mut Lines,
    rows: &mut Vec<Row<'a>>,
    number: u64,
    entry: &'a Entry,
) -> Result<(), ChartFault>
    ensures rows { OnOk result (map seen_row rows.new.items
        ≡ map seen_row rows.old.items ++ row scene.now.players.items number entry.now ∷ []) }
    ensures named { OnOk result (All (NamesTools scene.now.cast.now.tools.items) rows.old.items
        → All (NamesTools scene.now.cast.now.tools.items) rows.new.items) }
    ensures lines { OnOk result (All (HasLines lines.old) rows.old.items
        → All (HasLines lines.new) rows.new.items) }
    ensures stay { OnOk result (Stay lines.old lines.new) }
    ensures sound { OnOk result (Sound scene.now.players.items lines.old
        → Sound scene.now.players.items lines.new) }
    ensures needed { OnOk result
        (StayNeeded rows.old.items rows.new.items lines.old lines.new) }
    ensures err { IfErr result (IsEndFault scene.now number entry.now) }
    ensures there { OnOk result (HasEnds scene.now entry.now (ends_of (figure entry.now))) }
{
    let Some(ends) = scene.ends(ends_of(figure_of(entry)), entry) else {
        return Err(ChartFault::Line(number));
    };
    add_lines(lines, scene, ends)?;
    rows.push(row_of(scene, number, entry, ends))?;
    Ok(())
}

/// The row of an entry with these ends.
fn row_of<'a>(scene: &Scene, number: u64, entry: &'a Entry, ends: Option<(Who, Who)>) -> Row<'a>
    requires { IsTrue (fits entry.now (ends_of (figure entry.now)) ends) }
    ensures row { seen_row result ≡ row scene.now.players.items number entry.now }
    ensures entry { result.entry.now ≡ entry.now }
    ensures ends { result.ends ≡ ends }
{
    Row {
        number,
        entry,
        ends,
        bodies: scene.bodies(entry),
    }
}

#[tactic(auto, using(crate::proofs::LineLemmas::adds_both, crate::proofs::LineLemmas::stay_through, crate::proofs::LineLemmas::sound_through))]
fn add_lines(lines: &mut Lines, scene: &Scene, ends: Option<(Who, Who)>) -> Result<(), NoMemory>
    ensures there { OnOk result (IsTrue (are_players scene.now.players.items ends)
        → IsTrue (have_lines lines.new ends)) }
    ensures stay { OnOk result (Stay lines.old lines.new) }
    ensures sound { OnOk result (Sound scene.now.players.items lines.old
        → Sound scene.now.players.items lines.new) }
    ensures only { OnOk result ((test : Who → Bool) → IsTrue (are_all test ends)
        → HasOnly test lines.old → HasOnly test lines.new) }
{
    match ends {
        Some((from, to)) => {
            lines.add(from, scene)?;
            lines.add(to, scene)?;
            Ok(())
        }
        None => Ok(()),
    }
}
