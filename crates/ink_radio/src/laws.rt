//! What every script keeps.

ghost use Rattle.std.specs.Prelude.{List};
ghost use Rattle.ink_base.specs.declared.output.Output.{Output};
ghost use Rattle.ink_radio.specs.declared.event.RadioEvent.{RadioEvent};
ghost use Rattle.ink_radio.specs.Keeps.{EveryPrefixKeeps};

/// The law of the radio. Whatever it loses, repeats and reorders, and whenever node and base are cut: after every prefix of every script the saved
/// outputs of the base with its fresh ones behind them are a prefix of the outputs that have grown, and the node knows at most as many as saved as
/// are.
pub fn every_prefix_keeps()
    ensures { (outputs : List Output) (script : List RadioEvent) → EveryPrefixKeeps outputs script }
{}
