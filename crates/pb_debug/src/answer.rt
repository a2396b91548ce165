//! What a session answers to a line.

ghost use Rattle.std.specs.Prelude.{◌≡◌, ◌++◌, ◌<◌, ◌≤◌, ℕ, List, length, map, slice_get, Some, OnOk, OnErr, IfSome, IfNone};
ghost use Rattle.pb_debug.specs.Answers.{shown_names, HasNoName, OfProcess, SaysFault, SaysFaulted, SaysVars, SaysThreads, SaysLine, SaysStack, SaysText, SaysWho, SaysWhy};
ghost use Rattle.pb_debug.specs.Answers.{AnswersLine, AnswersCommand, AnswersNext, AnswersPick, AnswersPrev};
ghost use Rattle.pb_debug.specs.Answers.{AnswersUntil, SaysEvent, SaysWrite, SaysWrote, ShowsAny};
ghost use Rattle.pb_debug_texts.specs.Circles.{SaysCircle};
ghost use Rattle.pb_debug_texts.specs.Texts.{at_text, loans_text};
ghost use Rattle.pb_debug.specs.Value.{IsPosition, bank_state, moved_to, state_of};
ghost use Rattle.pb_debug_commands.specs.View.{command_view};

use crate::debugger::Debugger;
use crate::fault::DebugFault;
use crate::refusal::put_refusal;
use pb_base::NoMemory;
use pb_debug_commands::{ArmWord, Command, IntegerWord, StopWord, read_command};
use pb_debug_positions::{Watch, line_of_arm};
use pb_debug_texts::{
    put_at, put_circle, put_event, put_fault, put_help, put_loans, put_mark, put_never,
    put_no_event, put_no_fault, put_not_reached, put_source, put_source_line, put_stack,
    put_threads, put_vars, put_who, put_why, put_wrote,
};

/// Returns the number of a name among others.
fn find_name(names: &[Vec<u8>], word: &[u8]) -> Option<usize>
    ensures some { IfSome result (λ i. slice_get (map (λ name. name.items) names.now) i ≡ Some word.now) }
    ensures none { IfNone result ((i : ℕ) → slice_get (map (λ name. name.items) names.now) i ≡ Some word.now → ⊥) }
{
    for i in 0..names.len() {
        if names[i].as_slice() == word {
            return Some(i);
        }
    }
    None
}

impl<'c> Debugger<'c> {
    /// Returns the number of the process of this name.
    pub(crate) fn process(&self, word: &[u8]) -> Option<usize>
        ensures some { IfSome result (λ p. slice_get (shown_names self.now).processes p ≡ Some word.now) }
        ensures none { IfNone result (HasNoName (shown_names self.now) word.now) }
        ensures within { IfSome result (λ p. p < length (state_of self.now).processes) }
        ensures placed { IsPosition self.now }
    {
        // Called for its contract alone, which the proof needs.
        let _ = self.position();
        find_name(&self.verified.names().processes, word)
    }

    /// Appends the line of a position to a text, and goes there. The text is made first, so that the position
    /// stays if out of memory.
    fn go(&mut self, text: &mut Vec<u8>, position: u32) -> Result<(), NoMemory>
        requires { position ≤ length self.old.picks }
        ensures moved { OnOk result (self.new ≡ moved_to self.old position) }
        ensures text { OnOk result (text.new.items ≡ text.old.items ++ at_text position) }
        ensures unchanged { OnErr result (self.new ≡ self.old) }
    {
        put_at(text, position)?;
        match self.to(position) {
            Ok(()) => Ok(()),
            Err(_) => Err(NoMemory),
        }
    }

    /// Appends the line of the event of a pick to a text and goes to just after it, or puts the line that
    /// there is none.
    fn go_to_event(&mut self, text: &mut Vec<u8>, found: Option<u32>) -> Result<(), NoMemory>
        requires within { IfSome found (λ k. k < length self.old.picks) }
        requires shows { IfSome found (λ k. ShowsAny self.old k) }
        ensures said { OnOk result ((said : List ℕ) × SaysEvent self.old found said self.new
            × (text.new.items ≡ text.old.items ++ said)) }
        ensures unchanged { OnErr result (self.new ≡ self.old) }
    {
        let Some(k) = found else {
            return put_no_event(text);
        };
        let event = self.event_of(k)?;
        put_event(text, self.alloc, self.verified.names(), k + 1, &event)?;
        match self.to(k + 1) {
            Ok(()) => Ok(()),
            Err(_) => Err(NoMemory),
        }
    }

    fn say_next(&mut self, text: &mut Vec<u8>) -> Result<(), NoMemory>
        ensures said { OnOk result ((said : List ℕ) × AnswersNext self.old said self.new
            × (text.new.items ≡ text.old.items ++ said)) }
        ensures unchanged { OnErr result (self.new ≡ self.old) }
    {
        let found = self.find_next(Watch::Event)?;
        self.go_to_event(text, found)
    }

    fn say_prev(&mut self, text: &mut Vec<u8>) -> Result<(), NoMemory>
        ensures said { OnOk result ((said : List ℕ) × AnswersPrev self.old said self.new
            × (text.new.items ≡ text.old.items ++ said)) }
        ensures unchanged { OnErr result (self.new ≡ self.old) }
    {
        let position = self.position();
        let found = self.find_last(position - position.min(1), Watch::Event)?;
        self.go_to_event(text, found)
    }

    fn say_vars(&self, text: &mut Vec<u8>, word: &[u8]) -> Result<(), NoMemory>
        ensures { OnOk result ((said : List ℕ)
            × OfProcess (shown_names self.now) word.now (SaysVars self.now said) said
            × (text.new.items ≡ text.old.items ++ said)) }
    {
        let Some(p) = self.process(word) else {
            return put_refusal(text, DebugFault::NoProcess);
        };
        let Ok(vars) = self.vars(p) else {
            unreachable!()
        };
        put_vars(text, &self.labels.processes[p].integers, vars)
    }

    /// Appends the line of the pick with a number to a text, with the line of its arm before it.
    fn say_write(&self, text: &mut Vec<u8>, k: u32) -> Result<(), NoMemory>
        requires { k < length self.now.picks }
        ensures { OnOk result ((said : List ℕ) × SaysWrite self.now (Some k) said
            × (text.new.items ≡ text.old.items ++ said)) }
    {
        let walker = self.walker_at(k)?;
        let pick = self.trace.pick(k);
        let p = usize::from(pick.process);
        let line = line_of_arm(self.labels, &walker.machine, p, usize::from(pick.arm));
        put_wrote(text, self.verified.names(), k + 1, pick, line)
    }

    fn say_wrote(&self, text: &mut Vec<u8>, word: IntegerWord) -> Result<(), NoMemory>
        ensures { OnOk result ((said : List ℕ)
            × OfProcess (shown_names self.now) word.entry.process.now (SaysWrote self.now word.entry.integer.now said) said
            × (text.new.items ≡ text.old.items ++ said)) }
    {
        let Some(process) = self.process(word.process) else {
            return put_refusal(text, DebugFault::NoProcess);
        };
        let Some(integer) = find_name(&self.labels.processes[process].integers, word.integer) else {
            return put_refusal(text, DebugFault::BadCommand);
        };
        match self.find_last(self.position(), Watch::Integer { process, integer })? {
            Some(k) => self.say_write(text, k),
            None => put_never(text),
        }
    }

    /// Appends the line of the arm of a pick to a text, at the operator at which it is before the pick.
    fn say_faulted(&self, text: &mut Vec<u8>, k: u32) -> Result<(), NoMemory>
        requires { k < length self.now.picks }
        ensures { OnOk result ((said : List ℕ) × SaysFaulted self.now k said
            × (text.new.items ≡ text.old.items ++ said)) }
    {
        let walker = self.walker_at(k)?;
        let pick = self.trace.pick(k);
        let p = usize::from(pick.process);
        let arm = usize::from(pick.arm);
        let line = line_of_arm(self.labels, &walker.machine, p, arm);
        let verified = self.verified.code();
        let thread = walker.machine.proc(p).thread(arm);
        put_fault(
            text,
            &verified.names,
            pick,
            line,
            &verified.processes[p],
            thread,
        )
    }

    fn say_fault(&self, text: &mut Vec<u8>, word: &[u8]) -> Result<(), NoMemory>
        ensures { OnOk result ((said : List ℕ)
            × OfProcess (shown_names self.now) word.now (SaysFault self.now said) said
            × (text.new.items ≡ text.old.items ++ said)) }
    {
        let Some(process) = self.process(word) else {
            return put_refusal(text, DebugFault::NoProcess);
        };
        match self.find_last(self.position(), Watch::Fault { process })? {
            Some(k) => self.say_faulted(text, k),
            None => put_no_fault(text),
        }
    }

    fn say_until(&mut self, text: &mut Vec<u8>, word: StopWord) -> Result<(), NoMemory>
        ensures said { OnOk result ((said : List ℕ)
            × AnswersUntil self.old word.entry.process.now word.entry.arm word.entry.line said self.new
            × (text.new.items ≡ text.old.items ++ said)) }
        ensures unchanged { OnErr result (self.new ≡ self.old) }
    {
        let Some(process) = self.process(word.process) else {
            return put_refusal(text, DebugFault::NoProcess);
        };
        let arm = word.arm as usize;
        match self.line(process, arm) {
            Ok(_) => {}
            Err(_) => return put_refusal(text, DebugFault::NoArm),
        }
        match self.find_next(Watch::Line {
            process,
            arm,
            line: word.line,
        })? {
            Some(k) => self.go(text, k + 1),
            None => put_not_reached(text),
        }
    }

    fn say_threads(&self, text: &mut Vec<u8>, word: &[u8]) -> Result<(), NoMemory>
        ensures { OnOk result ((said : List ℕ)
            × OfProcess (shown_names self.now) word.now (SaysThreads self.now said) said
            × (text.new.items ≡ text.old.items ++ said)) }
    {
        let Some(p) = self.process(word) else {
            return put_refusal(text, DebugFault::NoProcess);
        };
        let Ok(process) = self.threads(p) else {
            unreachable!()
        };
        put_threads(text, process)
    }

    fn say_loans(&self, text: &mut Vec<u8>) -> Result<(), NoMemory>
        ensures { OnOk result (text.new.items ≡ text.old.items ++ loans_text (shown_names self.now) (bank_state self.now)) }
    {
        put_loans(text, self.verified.names(), self.loans())
    }

    fn say_circle(&self, text: &mut Vec<u8>) -> Result<(), NoMemory>
        ensures { OnOk result ((said : List ℕ) × SaysCircle self.now.verified.code (state_of self.now) said
            × (text.new.items ≡ text.old.items ++ said)) }
    {
        put_circle(text, self.alloc, self.verified, &self.walker.machine)
    }

    fn say_who(&self, text: &mut Vec<u8>, word: &[u8]) -> Result<(), NoMemory>
        ensures { OnOk result ((said : List ℕ) × SaysWho self.now word.now said × (text.new.items ≡ text.old.items ++ said)) }
    {
        let code = self.verified.code();
        let Some(r) = find_name(&code.names.resources, word) else {
            return put_refusal(text, DebugFault::BadCommand);
        };
        put_who(text, code, &self.walker.machine, r)
    }

    fn say_line(&self, text: &mut Vec<u8>, word: ArmWord) -> Result<(), NoMemory>
        ensures { OnOk result ((said : List ℕ)
            × OfProcess (shown_names self.now) word.entry.process.now (SaysLine self.now word.entry.arm said) said
            × (text.new.items ≡ text.old.items ++ said)) }
    {
        let Some(p) = self.process(word.process) else {
            return put_refusal(text, DebugFault::NoProcess);
        };
        match self.line(p, word.arm as usize) {
            Ok(line) => put_source_line(text, line),
            Err(_) => put_refusal(text, DebugFault::NoArm),
        }
    }

    fn say_text(&self, text: &mut Vec<u8>, word: ArmWord) -> Result<(), NoMemory>
        ensures { OnOk result ((said : List ℕ)
            × OfProcess (shown_names self.now) word.entry.process.now (SaysText self.now word.entry.arm said) said
            × (text.new.items ≡ text.old.items ++ said)) }
    {
        let Some(p) = self.process(word.process) else {
            return put_refusal(text, DebugFault::NoProcess);
        };
        match self.line(p, word.arm as usize) {
            Ok(line) => put_source(text, self.source, line),
            Err(_) => put_refusal(text, DebugFault::NoArm),
        }
    }

    fn say_stack(&self, text: &mut Vec<u8>, word: ArmWord) -> Result<(), NoMemory>
        ensures { OnOk result ((said : List ℕ)
            × OfProcess (shown_names self.now) word.entry.process.now (SaysStack self.now word.entry.arm said) said
            × (text.new.items ≡ text.old.items ++ said)) }
    {
        let Some(p) = self.process(word.process) else {
            return put_refusal(text, DebugFault::NoProcess);
        };
        let Ok(process) = self.threads(p) else {
            unreachable!()
        };
        let arm = word.arm as usize;
        if process.arms() <= arm {
            return put_refusal(text, DebugFault::NoArm);
        }
        put_stack(text, process.thread(arm))
    }

    fn say_why(&self, text: &mut Vec<u8>, word: ArmWord) -> Result<(), NoMemory>
        ensures { OnOk result ((said : List ℕ)
            × OfProcess (shown_names self.now) word.entry.process.now (SaysWhy self.now word.entry.arm said) said
            × (text.new.items ≡ text.old.items ++ said)) }
    {
        let Some(p) = self.process(word.process) else {
            return put_refusal(text, DebugFault::NoProcess);
        };
        self.say_reason(text, p, word.arm as usize)
    }

    /// Appends the line that says why an arm of a process does not go on to a text.
    pub fn say_reason(&self, text: &mut Vec<u8>, p: usize, arm: usize) -> Result<(), NoMemory>
        requires { p < length (state_of self.now).processes }
        ensures { OnOk result ((said : List ℕ) × SaysWhy self.now arm said p
            × (text.new.items ≡ text.old.items ++ said)) }
    {
        match self.why(p, arm) {
            Ok(why) => put_why(text, self.verified.names(), &why),
            Err(DebugFault::NoMemory) => Err(NoMemory),
            Err(_) => put_refusal(text, DebugFault::NoArm),
        }
    }

    fn say_pick(&mut self, text: &mut Vec<u8>, word: ArmWord) -> Result<(), NoMemory>
        ensures said { OnOk result ((said : List ℕ)
            × AnswersPick self.old word.entry.process.now word.entry.arm said self.new
            × (text.new.items ≡ text.old.items ++ said)) }
        ensures unchanged { OnErr result (self.new ≡ self.old) }
    {
        let Some(p) = self.process(word.process) else {
            return put_refusal(text, DebugFault::NoProcess);
        };
        let arm = word.arm as usize;
        match self.line(p, arm) {
            Ok(_) => self.say_tried(text, p, arm),
            Err(_) => put_refusal(text, DebugFault::NoArm),
        }
    }

    /// Carries out a command, and puts its answer after a text.
    fn carry_out(&mut self, text: &mut Vec<u8>, command: Command) -> Result<(), NoMemory>
        ensures answer { OnOk result ((said : List ℕ)
            × AnswersCommand self.old (command_view command.entry) said self.new
            × (text.new.items ≡ text.old.items ++ said)) }
        ensures unchanged { OnErr result (self.new ≡ self.old) }
    {
        let last = self.len();
        let position = self.position();
        match command {
            Command::To(i) if i <= last => self.go(text, i),
            Command::Step(n) if n <= last - position => self.go(text, position + n),
            Command::Back(n) if n <= position => self.go(text, position - n),
            Command::To(_) | Command::Step(_) | Command::Back(_) => {
                put_refusal(text, DebugFault::PastEnd)
            }
            Command::Mark(number) => put_mark(text, number),
            Command::Vars(word) => self.say_vars(text, word),
            Command::Wrote(word) => self.say_wrote(text, word),
            Command::Until(word) => self.say_until(text, word),
            Command::Threads(word) => self.say_threads(text, word),
            Command::Fault(word) => self.say_fault(text, word),
            Command::Loans => self.say_loans(text),
            Command::Circle => self.say_circle(text),
            Command::Arms => self.say_arms(text),
            Command::Who(word) => self.say_who(text, word),
            Command::Next => self.say_next(text),
            Command::Prev => self.say_prev(text),
            Command::Help => put_help(text),
            Command::Line(word) => self.say_line(text, word),
            Command::Text(word) => self.say_text(text, word),
            Command::Why(word) => self.say_why(text, word),
            Command::Does(word) => self.say_does(text, word),
            Command::Stack(word) => self.say_stack(text, word),
            Command::Pick(word) => self.say_pick(text, word),
        }
    }

    /// Appends the answer to a line, which is given without its line feed, to a text. Out of memory: the
    /// position is as before.
    pub(crate) fn answer(&mut self, text: &mut Vec<u8>, line: &[u8]) -> Result<(), NoMemory>
        ensures answer { OnOk result ((said : List ℕ) × AnswersLine self.old line.now said self.new
            × (text.new.items ≡ text.old.items ++ said)) }
        ensures unchanged { OnErr result (self.new ≡ self.old) }
    {
        match read_command(line) {
            Some(command) => self.carry_out(text, command),
            None => put_refusal(text, DebugFault::BadCommand),
        }
    }
}
