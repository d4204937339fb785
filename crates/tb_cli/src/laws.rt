//! Theorems about all arguments. The functions do nothing: their contracts are the theorems.

ghost use Rattle.std.specs.Prelude.{◌≡◌, ℕ, List, Ok};
ghost use Rattle.tb_cli.specs.declared.command.Command.{Command};
ghost use Rattle.tb_cli.specs.declared.pair_command.PairCommand.{PairCommand};
ghost use Rattle.tb_cli.specs.Table.{IsWithin, IsPairWithin};
ghost use Rattle.tb_cli.specs.Words.{asked, asked_pair};

/// States that the numbers of a requested command are within their ranges, and that at most 16 commands are connected.
pub fn asked_numbers_are_within_their_ranges()
    ensures { (words : List (List ℕ)) (command : Command) → asked words ≡ Ok command
        → IsWithin command }
{}

/// States that the numbers of a requested pair are within their ranges.
pub fn asked_pair_numbers_are_within_their_ranges()
    ensures { (words : List (List ℕ)) (command : PairCommand) → asked_pair words ≡ Ok command
        → IsPairWithin command }
{}
