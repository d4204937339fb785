//! The state of a lane as a log goes on, as far as the lane of a tool depends on it.

/// A lane.
#[derive(Clone, Copy)]
pub(crate) struct Lane {
    /// Its program has been started, and has not ended.
    pub is_up: bool,
    /// An end was queued since it was started.
    pub has_ended: bool,
    pub tool: LaneTool,
    /// The kind of the last tool that it had.
    pub kind: Option<u32>,
    /// How many items are queued on it.
    pub queued: u32,
}

/// Whether a lane has a tool.
#[derive(Clone, Copy)]
pub(crate) enum LaneTool {
    None,
    /// No process has taken it yet.
    Waiting,
    /// A process has taken it, and none has released it.
    Taken,
}

/// What happens on a lane.
#[derive(Clone, Copy)]
pub(crate) enum Turn {
    /// A process starts a tool of this kind.
    Execute(u32),
    /// A tool of this kind connects.
    Connect(u32),
    /// A process takes the tool.
    Take,
    /// A process releases the tool.
    Release,
    /// A line is queued.
    Queue,
    /// A last line and an end are queued, and the tool leaves the lane.
    Terminate,
    /// The bus shuts down.
    Down,
    /// The bus sends a command.
    Started,
    /// The bus sends a line or an end.
    Sent,
    /// The tool disconnects, or a write failed.
    Clear,
    /// The program has ended.
    Gone,
    Nothing,
}

/// A lane that was never started.
pub(crate) const UNUSED: Lane = Lane {
    is_up: false,
    has_ended: false,
    tool: LaneTool::None,
    kind: None,
    queued: 0,
};

impl Lane {
    /// Whether a tool can be started on it.
    pub(crate) fn is_free(&self) -> bool {
        !self.is_up && matches!(self.tool, LaneTool::None) && self.queued == 0
    }

    /// The lane afterwards.
    pub(crate) fn after(self, turn: Turn) -> Lane {
        match turn {
            Turn::Execute(kind) => self.executed(kind),
            Turn::Connect(kind) => Lane {
                tool: LaneTool::Waiting,
                kind: Some(kind),
                ..self
            },
            Turn::Take => Lane {
                tool: LaneTool::Taken,
                ..self
            },
            Turn::Release => Lane {
                tool: LaneTool::None,
                ..self
            },
            Turn::Queue => self.with_queued(1),
            Turn::Terminate => Lane {
                tool: LaneTool::None,
                has_ended: true,
                ..self.with_queued(2)
            },
            Turn::Down => self.down(),
            Turn::Started => self.started(),
            Turn::Sent => Lane {
                queued: self.queued.saturating_sub(1),
                ..self
            },
            Turn::Clear => self.cleared(),
            Turn::Gone => Lane {
                is_up: false,
                ..self.cleared()
            },
            Turn::Nothing => self,
        }
    }

    fn executed(self, kind: u32) -> Lane {
        Lane {
            is_up: true,
            has_ended: false,
            tool: LaneTool::Taken,
            kind: Some(kind),
            queued: 1,
        }
    }

    fn with_queued(self, more: u32) -> Lane {
        Lane {
            queued: self.queued.saturating_add(more),
            ..self
        }
    }

    fn down(self) -> Lane {
        if self.is_up && !self.has_ended {
            Lane {
                has_ended: true,
                ..self.with_queued(2)
            }
        } else {
            self
        }
    }

    /// A command that no step has queued is one of those with which the bus began.
    fn started(self) -> Lane {
        Lane {
            is_up: true,
            queued: self.queued.saturating_sub(1),
            ..self
        }
    }

    /// Only an end is left, and a waiting tool is forgotten.
    fn cleared(self) -> Lane {
        let queued = if self.has_ended && self.queued == 0 {
            0
        } else {
            1
        };
        let tool = match self.tool {
            LaneTool::Taken => LaneTool::Taken,
            LaneTool::Waiting | LaneTool::None => LaneTool::None,
        };
        Lane {
            has_ended: true,
            tool,
            queued,
            ..self
        }
    }
}
