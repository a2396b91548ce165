//! The wording of a claim over its capital: the holds that add up to it.

use pb_base::NoMemory;
use pb_codegen::ClaimsFault;
use pb_lexer::{Kind, Mark, Token};
use pb_mistakes::tokens::{closes, is_at, opens, text_at};
use pb_mistakes::{Shown, Wording};
use std::alloc::{AllocError, Global};

/// The most holds that are shown.
const MAX_SHOWN: usize = 6;

/// The greatest amount of a resource that is held at once, the tokens of the holds of which it is the sum, and
/// whether two arms hold parts of it side by side.
#[derive(Drop)]
struct Peak {
    amount: u64,
    holds: Vec<usize>,
    is_shared: bool,
}

/// A statement that is open: what it adds itself, the greatest peak of its parts, and of a parbegin the peaks
/// of the arms before this one together.
#[derive(Drop)]
struct Frame {
    is_parbegin: bool,
    own: Peak,
    greatest: Peak,
    together: Peak,
}

impl Peak {
    fn none(alloc: Global) -> Peak {
        Peak {
            amount: 0,
            holds: Vec::new(alloc),
            is_shared: false,
        }
    }

    /// Adds another peak, which is held at the same time.
    fn add(&mut self, other: &Peak) -> Result<(), NoMemory> {
        self.amount = self.amount.saturating_add(other.amount);
        self.is_shared |= other.is_shared;
        self.holds.extend_from_slice(&other.holds)?;
        Ok(())
    }
}

impl Frame {
    fn new(alloc: Global, is_parbegin: bool, own: Peak) -> Frame {
        Frame {
            is_parbegin,
            own,
            greatest: Peak::none(alloc),
            together: Peak::none(alloc),
        }
    }

    /// Ends an arm of a parbegin.
    fn end_arm(&mut self, alloc: Global) -> Result<(), NoMemory> {
        let is_shared = self.together.amount > 0 && self.greatest.amount > 0;
        self.together.add(&self.greatest)?;
        self.together.is_shared |= is_shared;
        self.greatest = Peak::none(alloc);
        Ok(())
    }

    /// Returns the peak of the whole statement.
    fn whole(self) -> Result<Peak, NoMemory> {
        let Frame {
            own: mut peak,
            greatest,
            together,
            is_parbegin: _,
        } = self;
        let is_shared = together.amount > 0 && greatest.amount > 0;
        peak.add(&together)?;
        peak.add(&greatest)?;
        peak.is_shared |= is_shared;
        Ok(peak)
    }
}

/// Returns the wording of a claim over its capital, with the holds that add up to the claim, and the other
/// claims that are over theirs.
pub fn claims_wording(
    alloc: Global,
    tokens: &[Token],
    fault: &ClaimsFault,
) -> Result<Wording, NoMemory> {
    let peak = process_peak(alloc, tokens, &fault.process, &fault.resource)?;
    let mut wording = Wording::new(alloc, claim_in_words(alloc, fault));
    tell_holds(alloc, &mut wording, tokens, &peak.holds, &fault.resource);
    wording.note(claim_hint(alloc, fault));
    if peak.is_shared {
        wording.hint(
            alloc,
            "two arms hold it side by side: with a greater capital both have it at once; where only one may, make each arm a process of its own",
        );
    }
    note_others(alloc, &mut wording, tokens, fault)?;
    Ok(wording)
}

fn claim_in_words(alloc: Global, fault: &ClaimsFault) -> Result<String, AllocError> {
    format!(in alloc;
        "process {} may hold {} of {} at once, and the capital is {}",
        Shown(&fault.process),
        fault.claim,
        Shown(&fault.resource),
        fault.capital
    )
}

/// Notes the first claims beside this one that are over their capital, and how many there are more.
fn note_others(
    alloc: Global,
    wording: &mut Wording,
    tokens: &[Token],
    fault: &ClaimsFault,
) -> Result<(), NoMemory> {
    let mut count = 0usize;
    for process in 0..tokens.len() {
        if is_at(tokens, process, Mark::Process) {
            count = note_claims(alloc, wording, tokens, fault, process, count)?;
        }
    }
    if count > MAX_SHOWN {
        let more = count - MAX_SHOWN;
        wording.note(format!(in alloc; "and {more} more claims are over their capital"));
    }
    Ok(())
}

/// Notes the claims of a process, whose word `process` is here, that are over their capital, beside this one;
/// from how many there were before to how many there are.
fn note_claims(
    alloc: Global,
    wording: &mut Wording,
    tokens: &[Token],
    fault: &ClaimsFault,
    process: usize,
    before: usize,
) -> Result<usize, NoMemory> {
    let mut count = before;
    for resource in 0..process.min(tokens.len()) {
        if is_at(tokens, resource, Mark::Resource) {
            if let Some(claim) = claim_over(alloc, tokens, process, resource)? {
                if !claim.is_of(fault) {
                    count = count.saturating_add(1);
                    note_claim(alloc, wording, &claim, count);
                }
            }
        }
    }
    Ok(count)
}

/// A claim over its capital.
#[derive(Clone, Copy)]
struct Claim<'t> {
    process: &'t [u8],
    resource: &'t [u8],
    amount: u64,
    capital: u64,
}

impl Claim<'_> {
    /// Returns whether a fault is of this claim.
    fn is_of(&self, fault: &ClaimsFault) -> bool {
        self.process == fault.process.as_slice() && self.resource == fault.resource.as_slice()
    }
}

/// Returns the claim of a process on a resource, whose words `process` and `resource` are here, if it is over
/// its capital.
fn claim_over<'t>(
    alloc: Global,
    tokens: &[Token<'t>],
    process: usize,
    resource: usize,
) -> Result<Option<Claim<'t>>, NoMemory> {
    let capital = number_at(tokens, resource.saturating_add(3));
    let process = text_at(tokens, process.saturating_add(1));
    let resource = text_at(tokens, resource.saturating_add(1));
    let amount = process_peak(alloc, tokens, process, resource)?.amount;
    if amount <= capital {
        return Ok(None);
    }
    Ok(Some(Claim {
        process,
        resource,
        amount,
        capital,
    }))
}

/// Notes a claim over its capital, if it is among the first ones.
fn note_claim(alloc: Global, wording: &mut Wording, claim: &Claim<'_>, number: usize) {
    if number <= MAX_SHOWN {
        wording.note(format!(in alloc;
            "also: process {} may hold {} of {} at once, and the capital is {}",
            Shown(claim.process),
            claim.amount,
            Shown(claim.resource),
            claim.capital
        ));
    }
}

/// Adds the first holds of these, and how many there are more.
fn tell_holds(
    alloc: Global,
    wording: &mut Wording,
    tokens: &[Token],
    holds: &[usize],
    resource: &[u8],
) {
    for hold in holds.iter().take(MAX_SHOWN) {
        tell_hold(alloc, wording, tokens, *hold, resource);
    }
    if holds.len() > MAX_SHOWN {
        let more = holds.len() - MAX_SHOWN;
        wording.note(format!(in alloc; "and {more} more holds"));
    }
}

/// Adds where a hold is, and how much it asks for.
fn tell_hold(alloc: Global, wording: &mut Wording, tokens: &[Token], hold: usize, resource: &[u8]) {
    if let Some(token) = tokens.get(hold) {
        let amount = own_amount(tokens, hold, resource);
        let label = format!(in alloc; "{amount} of {}: ", Shown(resource));
        wording.spot(label, token.start());
    }
}

fn claim_hint(alloc: Global, fault: &ClaimsFault) -> Result<String, AllocError> {
    format!(in alloc;
        "hint: hold less at once, or declare a greater capital: resource {} = {};",
        Shown(&fault.resource),
        fault.claim
    )
}

/// Returns the peak of a process on a resource.
fn process_peak(
    alloc: Global,
    tokens: &[Token],
    process: &[u8],
    resource: &[u8],
) -> Result<Peak, NoMemory> {
    let mut open = Vec::new(alloc);
    open.push(Frame::new(alloc, false, Peak::none(alloc)))?;
    let mut is_here = false;
    for number in 0..tokens.len() {
        if is_at(tokens, number, Mark::Process) {
            is_here = text_at(tokens, number.saturating_add(1)) == process;
        }
        if is_here {
            follow(alloc, tokens, number, resource, &mut open)?;
        }
    }
    match open.pop() {
        Some(frame) => frame.whole(),
        None => Ok(Peak::none(alloc)),
    }
}

/// Goes on by a token.
fn follow(
    alloc: Global,
    tokens: &[Token],
    number: usize,
    resource: &[u8],
    open: &mut Vec<Frame>,
) -> Result<(), NoMemory> {
    if opens(tokens, number) {
        let own = own_peak(alloc, tokens, number, resource)?;
        let is_parbegin = is_at(tokens, number, Mark::Parbegin);
        open.push(Frame::new(alloc, is_parbegin, own))?;
    } else if closes(tokens, number) {
        close(open)?;
    } else if is_at(tokens, number, Mark::Semicolon) {
        if let Some(frame) = open.last_mut() {
            if frame.is_parbegin {
                frame.end_arm(alloc)?;
            }
        }
    }
    Ok(())
}

/// Closes the statement that was opened last: its peak is one of the statement in which it is.
fn close(open: &mut Vec<Frame>) -> Result<(), NoMemory> {
    let Some(frame) = open.pop() else {
        return Ok(());
    };
    let peak = frame.whole()?;
    if let Some(outer) = open.last_mut() {
        if peak.amount > outer.greatest.amount {
            outer.greatest = peak;
        }
    }
    Ok(())
}

/// Returns what a statement adds to the peaks of its parts.
fn own_peak(
    alloc: Global,
    tokens: &[Token],
    number: usize,
    resource: &[u8],
) -> Result<Peak, NoMemory> {
    let mut peak = Peak::none(alloc);
    if is_at(tokens, number, Mark::Hold) {
        peak.amount = own_amount(tokens, number, resource);
        if peak.amount > 0 {
            peak.holds.push(number)?;
        }
    }
    Ok(peak)
}

/// Returns how much of a resource the hold asks for that begins with this token.
fn own_amount(tokens: &[Token], hold: usize, resource: &[u8]) -> u64 {
    for number in hold..tokens.len() {
        if is_at(tokens, number, Mark::Do) {
            return 0;
        }
        if is_at(tokens, number, Mark::Of)
            && text_at(tokens, number.saturating_add(1)) == resource
        {
            return number_at(tokens, number.saturating_sub(1));
        }
    }
    0
}

/// Returns the number that a token is.
fn number_at(tokens: &[Token], number: usize) -> u64 {
    match tokens.get(number) {
        Some(token) => match token.kind() {
            Kind::Number(value) => u64::try_from(value).unwrap_or(0),
            _ => 0,
        },
        None => 0,
    }
}
