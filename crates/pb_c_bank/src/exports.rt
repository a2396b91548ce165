//! The C functions. What C owes for each of them: pointers to memory of the types that are named, which nothing
//! else uses during the call, and a bank as the last call left it.

ghost use Rattle.std.specs.Prelude.{◌≡◌, take};
ghost use Rattle.pb_c_bank.specs.Banks.{IsBank, SaysOfAdopting, SaysOfAsking, SaysOfDropping, SaysOfGiving};
ghost use Rattle.pb_c_bank.specs.Banks.{SaysOfEntering, SaysOfLeaving, SaysOfOpening, SaysOfOrder, SaysOfReason, Stays};
ghost use Rattle.pb_c_bank.specs.Banks.{state, value};

use crate::bank::{Bank, Why, bundle_of, has_job, holds, is_request};
use crate::flags::{bytes_of, first_bytes_of, flags_of};
use crate::open::{is_capital, open};
use crate::said::{
    DONE, FULL, NO_BANK, NO_REQUEST, NOT_HELD, NOT_NOW, NOT_SAFE, OVER_CAPITAL, OVER_CASH,
    OVER_CLAIM, number_of,
};
use crate::seated::are_seated;
use crate::sound::is_sound;
use pb_banker::{Joined, Reason, admit, decide_by_asker, vacate};
use pb_base::limits::MAX_PROCESSES;

/// Opens a bank with this capital, of 1 to 16 resources, and no jobs.
#[unsafe(no_mangle)]
pub extern "C" fn pb_bank_new(bank: &mut Bank, capital: &[u32]) -> u32
    ensures { SaysOfOpening capital.now result bank.old bank.new }
{
    if !is_capital(capital) {
        return NO_BANK;
    }
    let accounts = open(capital);
    let order = [0; MAX_PROCESSES];
    let jobs = [0; MAX_PROCESSES];
    *bank = Bank {
        accounts,
        order,
        jobs,
    };
    DONE
}

/// Makes a bank of what lies there, whatever it is, with the jobs and the loans that it has; or says that it
/// is none, and leaves it.
#[unsafe(no_mangle)]
pub extern "C" fn pb_bank_adopt(bank: &mut Bank) -> u32
    ensures { SaysOfAdopting result bank.old bank.new }
{
    if bank.accounts.resources == 0 {
        return NO_BANK;
    }
    if !is_sound(&bank.accounts) {
        return NO_BANK;
    }
    let used = flags_of(&bank.jobs);
    if !are_seated(&bank.accounts, &used) {
        return NO_BANK;
    }
    let mut looked = 0;
    let found = bank.accounts.search(&mut looked);
    if found.count < bank.accounts.processes {
        return NOT_SAFE;
    }
    let order = found.order;
    bank.order = order;
    DONE
}

/// Gives a newcomer with these claims the first free slot. At `at` is the slot then, and the resource of which
/// his claim is over the capital if one is.
#[unsafe(no_mangle)]
pub extern "C" fn pb_bank_join(bank: &mut Bank, claims: &[u32], at: &mut usize) -> u32
    requires { IsBank bank.old }
    ensures bank { IsBank bank.new }
    ensures said { SaysOfEntering (value bank.old) claims.now result at.new (value bank.new) }
    ensures stays { Stays result bank.old bank.new }
{
    *at = 0;
    if claims.len() != bank.accounts.resources {
        return NO_REQUEST;
    }
    let mut accounts = bank.accounts;
    let mut order = bank.order;
    let mut used = flags_of(&bank.jobs);
    match admit(&mut accounts, &mut order, &mut used, claims) {
        Joined::In(p) => {
            *at = p;
            let jobs = bytes_of(&used);
            *bank = Bank {
                accounts,
                order,
                jobs,
            };
            DONE
        }
        Joined::OverCapital(r) => {
            *at = r;
            OVER_CAPITAL
        }
        Joined::Full => FULL,
    }
}

/// Takes back all that a job holds, and frees its slot.
#[unsafe(no_mangle)]
pub extern "C" fn pb_bank_leave(bank: &mut Bank, job: usize) -> u32
    requires { IsBank bank.old }
    ensures bank { IsBank bank.new }
    ensures said { SaysOfLeaving (value bank.old) job result (value bank.new) }
    ensures stays { Stays result bank.old bank.new }
{
    if !has_job(bank, job) {
        return NO_REQUEST;
    }
    let mut used = flags_of(&bank.jobs);
    vacate(&mut bank.accounts, &mut bank.order, &mut used, job);
    bank.jobs = bytes_of(&used);
    DONE
}

/// Asks for an amount of each resource, all or none of them.
#[unsafe(no_mangle)]
pub extern "C" fn pb_bank_ask(bank: &mut Bank, job: usize, amounts: &[u32]) -> u32
    requires { IsBank bank.old }
    ensures bank { IsBank bank.new }
    ensures said { SaysOfAsking (value bank.old) job amounts.now result (value bank.new) }
    ensures jobs { bank.new.jobs ≡ bank.old.jobs }
    ensures stays { result ≡ 3 → bank.new ≡ bank.old }
{
    if !is_request(bank, job, amounts) {
        return NO_REQUEST;
    }
    let bundle = bundle_of(amounts);
    let answer = decide_by_asker(&mut bank.accounts, &mut bank.order, job, &bundle);
    number_of(answer)
}

/// Gives back an amount of each resource, all or none of them.
#[unsafe(no_mangle)]
pub extern "C" fn pb_bank_give(bank: &mut Bank, job: usize, amounts: &[u32]) -> u32
    requires { IsBank bank.old }
    ensures bank { IsBank bank.new }
    ensures said { SaysOfGiving (value bank.old) job amounts.now result (value bank.new) }
    ensures stays { Stays result bank.old bank.new }
{
    if !is_request(bank, job, amounts) {
        return NO_REQUEST;
    }
    if !holds(bank, job, amounts) {
        return NOT_HELD;
    }
    let bundle = bundle_of(amounts);
    // Called for its contract alone, which the proof needs.
    let _ = bundle.len();
    bank.accounts.take_back(job, &bundle);
    DONE
}

/// Gives back all that a job holds.
#[unsafe(no_mangle)]
pub extern "C" fn pb_bank_drop_all(bank: &mut Bank, job: usize) -> u32
    requires { IsBank bank.old }
    ensures bank { IsBank bank.new }
    ensures said { SaysOfDropping (value bank.old) job result (value bank.new) }
    ensures stays { Stays result bank.old bank.new }
{
    if !has_job(bank, job) {
        return NO_REQUEST;
    }
    bank.accounts.take_back_all(job);
    DONE
}

/// Writes an order in which the jobs of all slots that have a row can finish, each next one the first that
/// fits, and returns how many they are. A free slot holds nothing, and so is in it too.
#[unsafe(no_mangle)]
pub extern "C" fn pb_bank_order(bank: &Bank, order: &mut [u8; MAX_PROCESSES]) -> usize
    requires { IsBank bank.now }
    ensures { SaysOfOrder (state bank.now) result (take result order.new) }
{
    let mut looked = 0;
    let found = bank.accounts.search(&mut looked);
    let next = found.order;
    *order = next;
    bank.accounts.processes
}

/// Says why a request would be granted or not, and changes nothing.
#[unsafe(no_mangle)]
pub extern "C" fn pb_bank_why(bank: &Bank, job: usize, amounts: &[u32], why: &mut Why) -> u32
    requires { IsBank bank.now }
    ensures { SaysOfReason (value bank.now) job amounts.now result why.new }
{
    why.resource = 0;
    why.rest = [0; MAX_PROCESSES];
    if !is_request(bank, job, amounts) {
        return NO_REQUEST;
    }
    let bundle = bundle_of(amounts);
    match bank.accounts.why(job, &bundle) {
        Reason::Allowed => DONE,
        Reason::OverClaim(r) => {
            why.resource = r;
            OVER_CLAIM
        }
        Reason::OverCash(r) => {
            why.resource = r;
            OVER_CASH
        }
        Reason::Rest(slots) => {
            why.rest = first_bytes_of(&slots, bank.accounts.processes);
            NOT_NOW
        }
    }
}
