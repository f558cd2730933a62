//! What a trial refuses: the refusals of its calls, each with its number, its place and its layer.
ghost use Rattle.std.specs.Prelude.{◌≡◌};
ghost use Rattle.trial.specs.Faults.{number_of, place_of, layer_of};
ghost use Rattle.trial.specs.declared.fault.TrialFault.TheVariants.{Text, Rule, Run};

use run::RunFault;
use text::fault::CompileFault;
use typing::fault::AcceptFault;

/// What a refusal is about.
#[derive(Clone, Copy, Debug, PartialEq, Eq)]
pub enum Layer {
    Text,
    Rule,
    Run,
}

/// The refusal that ended a trial, as the call that refused gave it.
#[derive(Clone, Copy, Debug, PartialEq, Eq)]
pub enum TrialFault {
    /// The text is not compiled: refusals 51 to 59, those of the lexer among them.
    Text(CompileFault),
    /// The record is not accepted: refusals 1 to 12.
    Rule(AcceptFault),
    /// The run refuses the readings, or the steps: refusals 20 and 22.
    Run(RunFault),
}

impl From<CompileFault> for TrialFault {
    ghost from_gives = { λ f r. r ≡ Text f };

    fn from(fault: CompileFault) -> TrialFault {
        TrialFault::Text(fault)
    }
}

impl From<AcceptFault> for TrialFault {
    ghost from_gives = { λ f r. r ≡ Rule f };

    fn from(fault: AcceptFault) -> TrialFault {
        TrialFault::Rule(fault)
    }
}

impl From<RunFault> for TrialFault {
    ghost from_gives = { λ f r. r ≡ Run f };

    fn from(fault: RunFault) -> TrialFault {
        TrialFault::Run(fault)
    }
}

impl TrialFault {
    /// The refusal's number, that of the call that refused.
    pub fn number(self) -> u8
        ensures { result ≡ number_of self }
    {
        match self {
            TrialFault::Text(fault) => fault.number(),
            TrialFault::Rule(fault) => fault.number(),
            TrialFault::Run(fault) => fault.number(),
        }
    }

    /// Its place: in the text, in the record or among the nodes, as the call that refused gave it; of a run's refusals 0.
    pub fn place(self) -> usize
        ensures { result ≡ place_of self }
    {
        match self {
            TrialFault::Text(fault) => fault.place(),
            TrialFault::Rule(fault) => fault.place(),
            TrialFault::Run(fault) => fault.place(),
        }
    }

    /// What refused: the text, the rule or the run.
    pub fn layer(self) -> Layer
        ensures { result ≡ layer_of self }
    {
        match self {
            TrialFault::Text(_) => Layer::Text,
            TrialFault::Rule(_) => Layer::Rule,
            TrialFault::Run(_) => Layer::Run,
        }
    }
}
