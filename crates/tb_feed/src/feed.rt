//! A feed: a list of inputs for a simulation.
ghost use Rattle.std.specs.Prelude.{◌≡◌, ◌<◌, [], length, slice_get, IfOk, Some};
ghost use Rattle.std.specs.List.{All};
ghost use Rattle.tb_feed.specs.Feeds.{MayBeFed};

use std::alloc::Global;
use std::marker::Model;
use tb_log::Input;
use tb_terms::NoMemory;

/// The inputs of a simulation, in order. Each input is in shape, and none is `noticks`. Contracts see a list of inputs.
#[derive(Drop)]
pub struct Feed {
    alloc: Global,
    inputs: Vec<Input>,
}

impl Model for Feed {
    ghost use Rattle.std.specs.Prelude.{List};
    ghost use Rattle.std.specs.Coded.{coded_list};
    ghost use Rattle.std.specs.List.{All};
    ghost use Rattle.tb_log.specs.declared.entry.Input.{Input};
    ghost use Rattle.tb_log.specs.contracts.entry.Input as input;
    ghost use Rattle.tb_feed.specs.Feeds.{MayBeFed};

    ghost Value = { List Input };

    ghost coded = { coded_list input.the_row.coded };

    ghost view = { λ feed. feed.inputs.items };

    ghost invariant = { λ feed. All MayBeFed feed.inputs.items };
}

impl Feed {
    /// Makes a feed without inputs. This takes no memory.
    pub fn empty(alloc: Global) -> Feed
        ensures { result ≡ [] }
    {
        Feed {
            alloc,
            inputs: Vec::new(alloc),
        }
    }

    /// Makes a feed of these inputs. This takes no memory: `alloc` is for the copies that `input` makes.
    pub fn new(alloc: Global, inputs: Vec<Input>) -> Feed
        requires { All MayBeFed inputs.items }
        ensures { result ≡ inputs.items }
    {
        Feed { alloc, inputs }
    }

    pub fn len(&self) -> usize
        ensures { result ≡ length self.now }
    {
        self.inputs.len()
    }

    /// Copies the input at this index, from 0.
    pub fn input(&self, index: usize) -> Result<Input, NoMemory>
        requires { index < length self.now }
        ensures value { IfOk result (λ input. slice_get self.now index ≡ Some input) }
        ensures may_be_fed { IfOk result MayBeFed }
    {
        self.inputs[index].copy(self.alloc)
    }
}
