//! The lines of things that are said.

ghost use Rattle.std.specs.Prelude.{◌≡◌, ◌++◌, OnOk, [], codes, cond, false, map, slice_index_or};
ghost use Rattle.std.specs.Fmt.{decimal};
ghost use Rattle.pb_base.specs.Lines.{line, name_of, names_view, pair_text};
ghost use Rattle.pb_bank.specs.Sayings.{about_of};
ghost use Rattle.pb_bank.specs.Tables as spec;
ghost use Rattle.pb_bank.specs.Words.{words_of};

use crate::refusal::put_refusal;
use crate::request::Request;
use crate::said::{Jobs, Said, Share, Stock};
use pb_base::limits::MAX_PROCESSES;
use pb_base::writing::{put, put_line, put_name, put_number};
use pb_base::{Bundle, Names, NoMemory, Pair};

/// Returns the name with a number, which is empty if there is none.
pub(crate) fn name_at<'t>(names: &'t [Vec<u8>], number: usize) -> &'t [u8]
    ensures { result.now ≡ name_of (map (λ name. name.items) names.now) number }
{
    if number < names.len() {
        names[number].as_slice()
    } else {
        b""
    }
}

/// Appends words and a name to `out`, and ends the line.
fn end_name(out: &mut Vec<u8>, words: &[u8], name: &[u8]) -> Result<(), NoMemory>
    ensures { OnOk result (out.new.items ≡ out.old.items ++ line (words.now ++ name.now)) }
{
    put_name(out, words, name)?;
    put(out, b"\n")
}

/// Appends words and a number to `out`, and ends the line.
fn end_number(out: &mut Vec<u8>, words: &[u8], number: u32) -> Result<(), NoMemory>
    ensures { OnOk result (out.new.items ≡ out.old.items ++ line (words.now ++ decimal number)) }
{
    put_number(out, words, number)?;
    put(out, b"\n")
}

/// Appends an amount and its resource to `out`.
fn put_pair(out: &mut Vec<u8>, names: &Names, pair: Pair) -> Result<(), NoMemory>
    ensures { OnOk result (out.new.items ≡ out.old.items ++ pair_text (names_view names.now) pair) }
{
    put_number(out, b" ", pair.amount)?;
    put_name(out, b" ", name_at(&names.resources, pair.resource as usize))
}

/// Appends an amount and its resource to `out`, after a comma if others are before it.
fn put_amount(out: &mut Vec<u8>, names: &Names, pair: Pair, is_behind: bool) -> Result<(), NoMemory>
    ensures { OnOk result (out.new.items ≡ out.old.items
        ++ cond is_behind (spec.next_text (names_view names.now) pair) (pair_text (names_view names.now) pair)) }
{
    if is_behind {
        put(out, b",")?;
    }
    put_pair(out, names, pair)
}

/// Appends the amounts of a request to `out`, with commas between.
fn put_amounts(out: &mut Vec<u8>, names: &Names, bundle: &Bundle) -> Result<(), NoMemory>
    ensures { OnOk result (out.new.items ≡ out.old.items ++ spec.amounts_text (names_view names.now) bundle.now) }
{
    for i in 0..bundle.len() {
        put_amount(out, names, bundle.get(i), 0 < i)?;
    }
    Ok(())
}

/// Appends the line of a request to `out`: a word, the job and the amounts.
fn put_request(
    out: &mut Vec<u8>,
    word: &[u8],
    names: &Names,
    request: &Request,
) -> Result<(), NoMemory>
    ensures { OnOk result (out.new.items ≡ out.old.items ++ spec.request_text word.now (names_view names.now) request.now) }
{
    put_name(out, word, name_at(&names.processes, request.job))?;
    put_amounts(out, names, &request.bundle)?;
    put(out, b"\n")
}

/// Appends the name of a job to `out`, if it is marked.
fn put_marked(
    out: &mut Vec<u8>,
    names: &Names,
    marks: &[bool; MAX_PROCESSES],
    p: usize,
) -> Result<(), NoMemory>
    ensures { OnOk result (out.new.items ≡ out.old.items
        ++ cond (slice_index_or marks.now p false) (codes " " ++ name_of (names_view names.now).processes p) []) }
{
    if p < MAX_PROCESSES && marks[p] {
        put_name(out, b" ", name_at(&names.processes, p))
    } else {
        Ok(())
    }
}

/// Appends the names of the jobs of a set to `out`, each after a space.
pub(crate) fn put_jobs(out: &mut Vec<u8>, names: &Names, jobs: &Jobs) -> Result<(), NoMemory>
    ensures { OnOk result (out.new.items ≡ out.old.items ++ spec.jobs_text (names_view names.now) jobs.now.marks jobs.now.count) }
{
    for p in 0..jobs.count {
        put_marked(out, names, &jobs.marks, p)?;
    }
    Ok(())
}

/// Appends the line of a set of jobs to `out`, after words.
fn put_set(out: &mut Vec<u8>, words: &[u8], names: &Names, jobs: &Jobs) -> Result<(), NoMemory>
    ensures { OnOk result (out.new.items ≡ out.old.items ++ spec.set_text words.now (names_view names.now) jobs.now) }
{
    put(out, words)?;
    put_jobs(out, names, jobs)?;
    put(out, b"\n")
}

/// Appends the name of the job of a slot to `out`, after a space.
fn put_slot(out: &mut Vec<u8>, names: &Names, slot: u8) -> Result<(), NoMemory>
    ensures { OnOk result (out.new.items ≡ out.old.items ++ spec.slot_text (names_view names.now) slot) }
{
    put_name(out, b" ", name_at(&names.processes, slot as usize))
}

/// Appends the names of the jobs of these slots to `out`, each after a space.
pub(crate) fn put_slots(out: &mut Vec<u8>, names: &Names, slots: &[u8]) -> Result<(), NoMemory>
    ensures { OnOk result (out.new.items ≡ out.old.items ++ spec.slots_text (names_view names.now) slots.now) }
{
    for slot in slots {
        put_slot(out, names, *slot)?;
    }
    Ok(())
}

/// Appends the line of an order to `out`.
fn put_order(out: &mut Vec<u8>, names: &Names, slots: &[u8]) -> Result<(), NoMemory>
    ensures { OnOk result (out.new.items ≡ out.old.items ++ line (codes "order" ++ spec.slots_text (names_view names.now) slots.now)) }
{
    put(out, b"order")?;
    put_slots(out, names, slots)?;
    put(out, b"\n")
}

/// Appends the line of a stock to `out`.
fn put_stock(out: &mut Vec<u8>, names: &Names, stock: &Stock) -> Result<(), NoMemory>
    ensures { OnOk result (out.new.items ≡ out.old.items ++ spec.stock_text (names_view names.now) stock.now) }
{
    put_name(out, b"resource ", name_at(&names.resources, stock.resource))?;
    put_number(out, b" capital ", stock.capital)?;
    end_number(out, b" cash ", stock.cash)
}

/// Appends the line of a share to `out`.
fn put_share(out: &mut Vec<u8>, names: &Names, share: &Share) -> Result<(), NoMemory>
    ensures { OnOk result (out.new.items ≡ out.old.items ++ spec.share_text (names_view names.now) share.now) }
{
    put_name(out, b"job ", name_at(&names.processes, share.job))?;
    put_name(out, b" ", name_at(&names.resources, share.resource))?;
    put_number(out, b" claim ", share.claim)?;
    put_number(out, b" holds ", share.holds)?;
    end_number(out, b" needs ", share.needs)
}

/// Appends the line of a job that lacks a resource to `out`.
fn put_lack(out: &mut Vec<u8>, names: &Names, p: usize, r: usize) -> Result<(), NoMemory>
    ensures { OnOk result (out.new.items ≡ out.old.items
        ++ line (codes "lacks " ++ name_of (names_view names.now).processes p ++ codes " " ++ name_of (names_view names.now).resources r)) }
{
    put_name(out, b"lacks ", name_at(&names.processes, p))?;
    end_name(out, b" ", name_at(&names.resources, r))
}

/// Appends the line of too little cash to `out`.
fn put_cash(out: &mut Vec<u8>, names: &Names, r: usize, cash: u32) -> Result<(), NoMemory>
    ensures { OnOk result (out.new.items ≡ out.old.items
        ++ line (codes "wait cash " ++ name_of (names_view names.now).resources r ++ codes " " ++ decimal cash)) }
{
    put_name(out, b"wait cash ", name_at(&names.resources, r))?;
    end_number(out, b" ", cash)
}

/// Appends the lines of all commands to `out`.
fn put_help(out: &mut Vec<u8>) -> Result<(), NoMemory>
    ensures { OnOk result (out.new.items ≡ out.old.items ++ spec.help_text) }
{
    put(
        out,
        b"resource R K\njob J K R, ..\nask J K R, ..\nwant J K R, ..\ndrop J\ngive J K R, ..\nleave J\ncapital R K\nclaim J K R\nwhy J K R, ..\nhold J K R, ..\norder\norder J ..\nstate\nhelp\n",
    )
}

/// Appends the line of a thing to `out`: it is said of a command after which this text stands.
pub fn put_line_of(
    out: &mut Vec<u8>,
    names: &Names,
    text: &[u8],
    said: &Said,
) -> Result<(), NoMemory>
    ensures { OnOk result (out.new.items ≡ out.old.items
        ++ spec.said_line (names_view names.now) (about_of (names_view names.now) (words_of text.now) said.now) said.now) }
{
    match said {
        Said::Granted(request) => put_request(out, b"granted ", names, request),
        Said::Held(request) => put_request(out, b"held ", names, request),
        Said::Wish(request) => put_request(out, b"wish ", names, request),
        Said::OverClaim(r) => end_name(out, b"over claim ", name_at(&names.resources, *r)),
        Said::WaitCash(r, cash) => put_cash(out, names, *r, *cash),
        Said::WaitRest(jobs) => put_set(out, b"wait rest", names, jobs),
        Said::Claimed(jobs) => put_set(out, b"claimed", names, jobs),
        Said::Order(slots) => put_order(out, names, slots.as_slice()),
        Said::Lacks(p, r) => put_lack(out, names, *p, *r),
        Said::Twice(p) => end_name(out, b"twice ", name_at(&names.processes, *p)),
        Said::Missing(p) => end_name(out, b"missing ", name_at(&names.processes, *p)),
        Said::Resource(stock) => put_stock(out, names, stock),
        Said::Job(share) => put_share(out, names, share),
        Said::Allowed => put_line(out, b"allowed"),
        Said::Queued => put_line(out, b"queued"),
        Said::Finishes => put_line(out, b"finishes"),
        Said::Refused(refusal) => put_refusal(out, names, text, *refusal),
        Said::Help => put_help(out),
        Said::Ready => put_line(out, b"ready"),
        Said::NoMemory => put_line(out, b"memory"),
    }
}
