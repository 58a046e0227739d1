// The Location Consistency cache protocol at one location of the memory, as a machine of its own, and what it keeps of
// the memory model. The machine, its runs and the rules stand in specs/.
#![tactic(auto)]

ghost use Rattle.protocol.specs.Rules.{ProtocolKeepsModel};

// Does nothing: its contract is the theorem, for every run of the machine.
pub fn protocol_keeps_model()
    ensures { ProtocolKeepsModel }
{}
