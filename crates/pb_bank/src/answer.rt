//! What a desk answers to a line.

ghost use Rattle.std.specs.Prelude.{◌≡◌, ◌++◌, ◌∷◌, [], List, OnOk};
ghost use Rattle.pb_bank.specs.Answers as answers;
ghost use Rattle.pb_bank.specs.Answers.{AnswersLine, line_words};
ghost use Rattle.pb_bank.specs.Queues.{wishes_said};
ghost use Rattle.pb_bank.specs.Sayings.{sayings_of};
ghost use Rattle.pb_bank.specs.Words.{words_of};
ghost use Rattle.pb_bank.specs.declared.said.Said.{Said};
ghost use Rattle.pb_bank.specs.declared.said.Said.TheVariants.{Help};

use crate::desk::Desk;
use crate::kind::{Kind, kind_within};
use crate::queue::say_wishes;
use crate::refusal::Refusal;
use crate::said::{Said, say};
use crate::state::say_bank;
use crate::words::{first_word, trimmed};
use pb_base::NoMemory;

/// The most bytes of a command, from the first that is no blank.
pub const MAX_COMMAND: usize = 4_096;

impl Desk {
    /// Says the state, if no words are after the command.
    fn say_state(&self, out: &mut Vec<Said>, text: &[u8]) -> Result<(), NoMemory>
        ensures { OnOk result ((said : List Said)
            × answers.AnswersAlone (answers.state_said self.now.bank ++ wishes_said self.now.wishes)
            self.now (words_of text.now) said self.now
            × (out.new.items ≡ out.old.items ++ said)) }
    {
        if first_word(text).word.is_empty() {
            // Called for its contract alone, which the proof needs.
            let _ = self.bank.slots();
            say_bank(out, &self.bank)?;
            say_wishes(out, &self.wishes)
        } else {
            say(out, Said::Refused(Refusal::Command))
        }
    }

    /// Says the commands, if no words are after this one.
    fn say_help(&self, out: &mut Vec<Said>, text: &[u8]) -> Result<(), NoMemory>
        ensures { OnOk result ((said : List Said)
            × answers.AnswersAlone (Help ∷ []) self.now (words_of text.now) said self.now
            × (out.new.items ≡ out.old.items ++ said)) }
    {
        if first_word(text).word.is_empty() {
            say(out, Said::Help)
        } else {
            say(out, Said::Refused(Refusal::Command))
        }
    }

    /// Carries out a command of this kind, and appends the answer.
    fn say_kind(&mut self, out: &mut Vec<Said>, kind: Kind, text: &[u8]) -> Result<(), NoMemory>
        ensures { OnOk result ((said : List Said) × answers.AnswersKind kind self.old (words_of text.now) said self.new
            × (out.new.items ≡ out.old.items ++ said)) }
    {
        match kind {
            Kind::Ask => self.say_ask(out, false, text),
            Kind::Want => self.say_want(out, text),
            Kind::Drop => self.say_drop(out, text),
            Kind::Give => self.say_give(out, text),
            Kind::Hold => self.say_ask(out, true, text),
            Kind::Why => self.say_why(out, text),
            Kind::Leave => self.say_leave(out, text),
            Kind::Job => self.say_job(out, text),
            Kind::Resource => self.say_resource(out, text),
            Kind::Capital => self.say_capital(out, text),
            Kind::Claim => self.say_claim(out, text),
            Kind::Order => self.say_order(out, text),
            Kind::State => self.say_state(out, text),
            Kind::Help => self.say_help(out, text),
            Kind::Skip | Kind::Other => say(out, Said::Refused(Refusal::Command)),
        }
    }

    /// Carries out the command of a line, which is given without its line feed, and says the answer. Nothing is said of an empty line, and of one that begins with `#`. Any other answer ends with `ready`. A command that is refused changes nothing. After each command no wish of the queue is allowed.
    /// If out of memory, a first part of the answer may have been said, and the queue may be empty.
    #[tactic(auto, using(crate::proofs::WordLemmas::before_some, crate::proofs::WordLemmas::before_none), unfolding(crate::specs::Answers::AnswersLine))]
    pub fn answer(&mut self, out: &mut Vec<Said>, line: &[u8]) -> Result<(), NoMemory>
        ensures { OnOk result ((said : List Said)
            × AnswersLine self.old line.now (sayings_of self.new.names (line_words line.now) said) self.new
            × (out.new.items ≡ out.old.items ++ said)) }
    {
        // Called for its contract alone, which the proof needs.
        let _ = self.waiting();
        let text = trimmed(line);
        let first = first_word(text);
        let kind = kind_within(MAX_COMMAND < text.len(), first.word);
        if kind == Kind::Skip {
            return Ok(());
        }
        self.say_kind(out, kind, first.rest)?;
        // Called for its contract alone, which the proof needs.
        let _ = self.waiting();
        say(out, Said::Ready)
    }
}
