//! What a finding is filed under.

ghost use Rattle.std.specs.Prelude.{◌≡◌};
ghost use Rattle.pb_findings.specs.Rules.{rule_name, rule_summary};

use pb_explain::entry_for;
use pb_options::Code;

/// What a finding is filed under: the code of a refusal or a warning, or that there was too little memory to look.
#[derive(Clone, Copy)]
pub enum Rule {
    /// A code.
    Code(Code),
    /// Too little memory.
    Memory,
}

impl Rule {
    /// Returns the word of the rule.
    pub fn name(self) -> &'static str
        ensures { result.now ≡ rule_name self }
    {
        match self {
            Rule::Code(code) => code.name(),
            Rule::Memory => "memory",
        }
    }

    /// Returns its meaning in a few words.
    pub fn summary(self) -> &'static str
        ensures { result.now ≡ rule_summary self }
    {
        match self {
            Rule::Code(code) => entry_for(code).summary,
            Rule::Memory => "memory",
        }
    }
}
