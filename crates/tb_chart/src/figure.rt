//! What a chart shows of an entry.
ghost use Rattle.std.specs.Prelude.{◌≡◌};
ghost use Rattle.tb_chart.specs.Ends.{ends_of};
ghost use Rattle.tb_chart.specs.Figures.{figure, step_figure, taken_figure, dropped_figure, given_figure};

use tb_log::{Entry, Input, LabelKind, Out, Reply};

/// Who is at an end of an arrow.
#[derive(Clone, Copy)]
pub enum End {
    /// The process with this number.
    Process(u32),
    /// The process that the step creates.
    Child,
    /// The tool that the first term of the step names.
    Tool,
    /// The program on this lane.
    Lane(u8),
    /// The notes that wait until a process takes them.
    Notes,
}

/// How an arrow is drawn.
#[derive(Clone, Copy)]
pub enum ArrowKind {
    /// From one process to another.
    Message,
    /// To the notes, or from them.
    Note,
    /// A tool must answer.
    Question,
    /// The answer of a tool, or the acknowledgement of an event.
    Answer,
    /// An event of a tool.
    Event,
    /// A tool must do something.
    Order,
    /// A process or a tool begins to take part.
    Start,
    /// A tool takes no part any more.
    End,
}

/// What a chart shows of an entry.
#[derive(Clone, Copy)]
pub enum Figure {
    Arrow(ArrowKind, End, End),
    /// Something that concerns one alone.
    Mark(End),
    /// The program on this lane has ended, or was cut off.
    Stop(u8),
    /// A line of the program on this lane was dropped.
    Lost(u8),
    /// A tick, or the end of ticks: a thin line across all lifelines.
    Time,
    /// The end of the bus: a line across all lifelines.
    Rule,
    /// Nothing.
    Hidden,
}

/// Returns what a chart shows of an entry.
pub fn figure_of(entry: &Entry) -> Figure
    ensures { result ≡ figure entry.now }
{
    match entry {
        Entry::Did(label) => step_figure(label.kind, label.from.proc, label.to.proc),
        Entry::Quiet => Figure::Hidden,
        Entry::Fed(input, Reply::Took) => taken_figure(input),
        Entry::Fed(input, Reply::Dropped(_)) => dropped_figure(input),
        Entry::Gave(lane, out) => given_figure(*lane, out),
    }
}

fn step_figure(kind: LabelKind, from: u32, to: u32) -> Figure
    ensures { result ≡ step_figure kind from to }
{
    let process = End::Process(from);
    match kind {
        LabelKind::Msg => Figure::Arrow(ArrowKind::Message, process, End::Process(to)),
        LabelKind::SndNote => Figure::Arrow(ArrowKind::Note, process, End::Notes),
        LabelKind::RecNote => Figure::Arrow(ArrowKind::Note, End::Notes, process),
        LabelKind::Create => Figure::Arrow(ArrowKind::Start, process, End::Child),
        LabelKind::Execute => Figure::Arrow(ArrowKind::Start, process, End::Tool),
        LabelKind::RecConnect => Figure::Arrow(ArrowKind::Start, End::Tool, process),
        LabelKind::RecDisconnect => Figure::Arrow(ArrowKind::End, End::Tool, process),
        LabelKind::SndEval => Figure::Arrow(ArrowKind::Question, process, End::Tool),
        LabelKind::RecValue => Figure::Arrow(ArrowKind::Answer, End::Tool, process),
        LabelKind::SndDo => Figure::Arrow(ArrowKind::Order, process, End::Tool),
        LabelKind::RecEvent => Figure::Arrow(ArrowKind::Event, End::Tool, process),
        LabelKind::SndAckEvent => Figure::Arrow(ArrowKind::Answer, process, End::Tool),
        LabelKind::SndTerminate => Figure::Arrow(ArrowKind::End, process, End::Tool),
        LabelKind::Shutdown | LabelKind::Finish | LabelKind::Halt => Figure::Rule,
        LabelKind::Set
        | LabelKind::Tau
        | LabelKind::Printf
        | LabelKind::NoNote
        | LabelKind::Subscribe
        | LabelKind::Unsubscribe => Figure::Mark(process),
    }
}

fn taken_figure(input: &Input) -> Figure
    ensures { result ≡ taken_figure input.now }
{
    match input {
        Input::Tick | Input::NoTicks => Figure::Time,
        Input::Line(lane, _) => Figure::Mark(End::Lane(*lane)),
        Input::Gone(lane) | Input::Cut(lane) => Figure::Stop(*lane),
    }
}

fn dropped_figure(input: &Input) -> Figure
    ensures { result ≡ dropped_figure input.now }
{
    match input {
        Input::Line(lane, _) => Figure::Lost(*lane),
        Input::Tick | Input::NoTicks | Input::Gone(_) | Input::Cut(_) => Figure::Hidden,
    }
}

fn given_figure(lane: u8, out: &Out) -> Figure
    ensures { result ≡ given_figure lane out.now }
{
    match out {
        Out::Start(_) => Figure::Mark(End::Lane(lane)),
        Out::Line(_) | Out::End => Figure::Hidden,
    }
}

/// Returns the ends of a figure. Both are one where it is on one lifeline.
pub fn ends_of(figure: Figure) -> Option<(End, End)>
    ensures { result ≡ ends_of figure }
{
    match figure {
        Figure::Arrow(_, from, to) => Some((from, to)),
        Figure::Mark(end) => Some((end, end)),
        Figure::Stop(lane) | Figure::Lost(lane) => Some((End::Lane(lane), End::Lane(lane))),
        Figure::Time | Figure::Rule | Figure::Hidden => None,
    }
}
