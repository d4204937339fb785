//! The effect on a part when one of its atoms happens.
ghost use Rattle.std.specs.Prelude.{◌≡◌};
ghost use Rattle.tb_code.specs.Entries.{followed};

/// The effect on a part when one of its atoms happens.
#[derive(Clone, Copy, Drop)]
pub enum Behind {
    /// The part has ended.
    Ended,
    /// The process enters this position instead of the part.
    Entered(usize),
    /// A merge or a disrupt is parted into branches, or a waiting right side takes a step. The effect doesn't state the branches.
    Parted,
}

impl Behind {
    /// Returns the combined effect on a whole. `self` is the effect on a part of the whole, and `next` is the effect of the part's end.
    pub fn followed(self, next: Behind) -> Behind
        ensures { result ≡ followed self next }
    {
        match self {
            Behind::Ended => next,
            Behind::Entered(position) => match next {
                Behind::Parted => Behind::Parted,
                Behind::Ended => Behind::Entered(position),
                Behind::Entered(_) => Behind::Entered(position),
            },
            Behind::Parted => Behind::Parted,
        }
    }
}
