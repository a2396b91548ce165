//! The objects of JSON of things that are said.

ghost use Rattle.std.specs.Prelude.{◌≡◌, ◌++◌, OnOk, codes, cond, drop};
ghost use Rattle.pb_base.specs.Lines.{name_of, names_view};
ghost use Rattle.pb_bank.specs.Objects as spec;
ghost use Rattle.pb_bank.specs.Sayings.{about_of, refusal_about};
ghost use Rattle.pb_bank.specs.Tables.{jobs_text, slots_text};
ghost use Rattle.pb_bank.specs.Words.{words_of};

use crate::lines::{name_at, put_jobs, put_slots};
use crate::refusal::{Refusal, code_of, put_about, put_words};
use crate::request::Request;
use crate::said::{Jobs, Said, Share, Stock};
use pb_base::writing::{put, put_digits};
use pb_base::{Bundle, Names, NoMemory, Pair};
use pb_json::put_string;
use std::alloc::Global;

/// Begins an object of a kind.
#[tactic(auto, unfolding(crate::specs::Objects::kind_text))]
fn put_kind(out: &mut Vec<u8>, kind: &[u8]) -> Result<(), NoMemory>
    ensures { OnOk result (out.new.items ≡ out.old.items ++ spec.kind_text kind.now) }
{
    put(out, b"{\"kind\":\"")?;
    put(out, kind)?;
    put(out, b"\"")
}

/// Appends a key, before its value.
#[tactic(auto, unfolding(crate::specs::Objects::key_text))]
fn put_key(out: &mut Vec<u8>, key: &[u8]) -> Result<(), NoMemory>
    ensures { OnOk result (out.new.items ≡ out.old.items ++ spec.key_text key.now) }
{
    put(out, b",\"")?;
    put(out, key)?;
    put(out, b"\":")
}

/// Appends a key with a string.
#[tactic(auto, unfolding(crate::specs::Objects::string_member))]
fn put_member(out: &mut Vec<u8>, key: &[u8], value: &[u8]) -> Result<(), NoMemory>
    ensures { OnOk result (out.new.items ≡ out.old.items ++ spec.string_member key.now value.now) }
{
    put_key(out, key)?;
    put_string(out, value)
}

/// Appends a key with a number.
#[tactic(auto, unfolding(crate::specs::Objects::number_member))]
fn put_number(out: &mut Vec<u8>, key: &[u8], value: u32) -> Result<(), NoMemory>
    ensures { OnOk result (out.new.items ≡ out.old.items ++ spec.number_member key.now value) }
{
    put_key(out, key)?;
    put_digits(out, value)
}

/// Ends an object.
fn put_end(out: &mut Vec<u8>) -> Result<(), NoMemory>
    ensures { OnOk result (out.new.items ≡ out.old.items ++ spec.end_text) }
{
    put(out, b"}\n")
}

/// Appends an object with no other member.
fn put_lone(out: &mut Vec<u8>, kind: &[u8]) -> Result<(), NoMemory>
    ensures { OnOk result (out.new.items ≡ out.old.items ++ spec.lone_json kind.now) }
{
    put_kind(out, kind)?;
    put_end(out)
}

/// Appends an object with one string.
fn put_one(out: &mut Vec<u8>, kind: &[u8], key: &[u8], value: &[u8]) -> Result<(), NoMemory>
    ensures { OnOk result (out.new.items ≡ out.old.items ++ spec.string_json kind.now key.now value.now) }
{
    put_kind(out, kind)?;
    put_member(out, key, value)?;
    put_end(out)
}

/// Appends an amount and its resource.
#[tactic(auto, unfolding(crate::specs::Objects::amount_json))]
fn put_pair(out: &mut Vec<u8>, names: &Names, pair: Pair) -> Result<(), NoMemory>
    ensures { OnOk result (out.new.items ≡ out.old.items ++ spec.amount_json (names_view names.now) pair) }
{
    put(out, b"{\"amount\":")?;
    put_digits(out, pair.amount)?;
    put_member(
        out,
        b"resource",
        name_at(&names.resources, pair.resource as usize),
    )?;
    put(out, b"}")
}

/// Appends an amount and its resource, after a comma if others are before it.
fn put_amount(out: &mut Vec<u8>, names: &Names, pair: Pair, is_behind: bool) -> Result<(), NoMemory>
    ensures { OnOk result (out.new.items ≡ out.old.items
        ++ cond is_behind (spec.next_json (names_view names.now) pair) (spec.amount_json (names_view names.now) pair)) }
{
    if is_behind {
        put(out, b",")?;
    }
    put_pair(out, names, pair)
}

/// Appends the amounts of a request, with commas between.
#[tactic(auto, unfolding(crate::specs::Objects::amounts_json))]
fn put_amounts(out: &mut Vec<u8>, names: &Names, bundle: &Bundle) -> Result<(), NoMemory>
    ensures { OnOk result (out.new.items ≡ out.old.items ++ spec.amounts_json (names_view names.now) bundle.now) }
{
    for i in 0..bundle.len() {
        put_amount(out, names, bundle.get(i), 0 < i)?;
    }
    Ok(())
}

/// Appends the list of the amounts of a request.
#[tactic(auto, unfolding(crate::specs::Objects::list_json))]
fn put_list(out: &mut Vec<u8>, names: &Names, bundle: &Bundle) -> Result<(), NoMemory>
    ensures { OnOk result (out.new.items ≡ out.old.items ++ spec.list_json (names_view names.now) bundle.now) }
{
    put(out, b"[")?;
    put_amounts(out, names, bundle)?;
    put(out, b"]")
}

/// Appends the object of a request.
fn put_request(
    out: &mut Vec<u8>,
    kind: &[u8],
    names: &Names,
    request: &Request,
) -> Result<(), NoMemory>
    ensures { OnOk result (out.new.items ≡ out.old.items ++ spec.request_json kind.now (names_view names.now) request.now) }
{
    put_kind(out, kind)?;
    put_member(out, b"job", name_at(&names.processes, request.job))?;
    put_key(out, b"amounts")?;
    put_list(out, names, &request.bundle)?;
    put_end(out)
}

/// Returns a text without its first byte.
fn behind_first(text: &[u8]) -> &[u8]
    ensures { result.now ≡ drop 1 text.now }
{
    if text.is_empty() { text } else { &text[1..] }
}

/// Appends the object of a set of jobs.
fn put_set(
    alloc: Global,
    out: &mut Vec<u8>,
    kind: &[u8],
    names: &Names,
    jobs: &Jobs,
) -> Result<(), NoMemory>
    ensures { OnOk result (out.new.items ≡ out.old.items
        ++ spec.string_json kind.now (codes "text") (drop 1 (jobs_text (names_view names.now) jobs.now.marks jobs.now.count))) }
{
    let mut text = Vec::new(alloc);
    put_jobs(&mut text, names, jobs)?;
    put_one(out, kind, b"text", behind_first(&text))
}

/// Appends the object of an order.
fn put_order(alloc: Global, out: &mut Vec<u8>, names: &Names, slots: &[u8]) -> Result<(), NoMemory>
    ensures { OnOk result (out.new.items ≡ out.old.items
        ++ spec.string_json (codes "order") (codes "text") (drop 1 (slots_text (names_view names.now) slots.now))) }
{
    let mut text = Vec::new(alloc);
    put_slots(&mut text, names, slots)?;
    put_one(out, b"order", b"text", behind_first(&text))
}

/// Appends the object of a stock.
fn put_stock(out: &mut Vec<u8>, names: &Names, stock: &Stock) -> Result<(), NoMemory>
    ensures { OnOk result (out.new.items ≡ out.old.items ++ spec.stock_json (names_view names.now) stock.now) }
{
    put_kind(out, b"resource")?;
    put_member(out, b"resource", name_at(&names.resources, stock.resource))?;
    put_number(out, b"capital", stock.capital)?;
    put_number(out, b"cash", stock.cash)?;
    put_end(out)
}

/// Appends the object of a share.
fn put_share(out: &mut Vec<u8>, names: &Names, share: &Share) -> Result<(), NoMemory>
    ensures { OnOk result (out.new.items ≡ out.old.items ++ spec.share_json (names_view names.now) share.now) }
{
    put_kind(out, b"job")?;
    put_member(out, b"job", name_at(&names.processes, share.job))?;
    put_member(out, b"resource", name_at(&names.resources, share.resource))?;
    put_number(out, b"claim", share.claim)?;
    put_number(out, b"holds", share.holds)?;
    put_number(out, b"needs", share.needs)?;
    put_end(out)
}

/// Appends the object of too little cash.
fn put_cash(out: &mut Vec<u8>, names: &Names, r: usize, cash: u32) -> Result<(), NoMemory>
    ensures { OnOk result (out.new.items ≡ out.old.items ++ spec.cash_json (names_view names.now) r cash) }
{
    put_kind(out, b"wait cash")?;
    put_member(out, b"resource", name_at(&names.resources, r))?;
    put_number(out, b"cash", cash)?;
    put_end(out)
}

/// Appends the object of a job that lacks a resource.
fn put_lack(out: &mut Vec<u8>, names: &Names, p: usize, r: usize) -> Result<(), NoMemory>
    ensures { OnOk result (out.new.items ≡ out.old.items ++ spec.lack_json (names_view names.now) p r) }
{
    put_kind(out, b"lacks")?;
    put_member(out, b"job", name_at(&names.processes, p))?;
    put_member(out, b"resource", name_at(&names.resources, r))?;
    put_end(out)
}

/// Appends the object of a refusal of a command after which this text stands.
fn put_refusal(
    alloc: Global,
    out: &mut Vec<u8>,
    names: &Names,
    text: &[u8],
    refusal: Refusal,
) -> Result<(), NoMemory>
    ensures { OnOk result (out.new.items ≡ out.old.items
        ++ spec.bank_refusal_json (refusal_about (names_view names.now) (words_of text.now) refusal) refusal) }
{
    let mut words = Vec::new(alloc);
    put_words(&mut words, refusal)?;
    put_about(&mut words, names, text, refusal)?;
    put_kind(out, b"refused")?;
    put_member(out, b"code", code_of(refusal))?;
    put_member(out, b"text", &words)?;
    put_end(out)
}

/// Appends the object of a form of a command.
#[tactic(auto, unfolding(crate::specs::Objects::form_json))]
fn put_form(out: &mut Vec<u8>, form: &[u8]) -> Result<(), NoMemory>
    ensures { OnOk result (out.new.items ≡ out.old.items ++ spec.form_json form.now) }
{
    put_one(out, b"line", b"text", form)
}

/// Appends the object of a form of `order`.
#[tactic(auto, unfolding(crate::specs::Objects::order_form_json))]
fn put_order_form(out: &mut Vec<u8>, words: &[u8]) -> Result<(), NoMemory>
    ensures { OnOk result (out.new.items ≡ out.old.items ++ spec.order_form_json words.now) }
{
    put_one(out, b"order", b"text", words)
}

/// Appends the objects of the first four commands.
#[tactic(auto, unfolding(crate::specs::Objects::first_forms))]
fn put_first_forms(out: &mut Vec<u8>) -> Result<(), NoMemory>
    ensures { OnOk result (out.new.items ≡ out.old.items ++ spec.first_forms) }
{
    put_form(out, b"resource R K")?;
    put_form(out, b"job J K R, ..")?;
    put_form(out, b"ask J K R, ..")?;
    put_form(out, b"want J K R, ..")
}

/// Appends the objects of the four after them.
#[tactic(auto, unfolding(crate::specs::Objects::second_forms))]
fn put_second_forms(out: &mut Vec<u8>) -> Result<(), NoMemory>
    ensures { OnOk result (out.new.items ≡ out.old.items ++ spec.second_forms) }
{
    put_form(out, b"drop J")?;
    put_form(out, b"give J K R, ..")?;
    put_form(out, b"leave J")?;
    put_form(out, b"capital R K")
}

/// Appends the objects of those up to `order`.
#[tactic(auto, unfolding(crate::specs::Objects::third_forms))]
fn put_third_forms(out: &mut Vec<u8>) -> Result<(), NoMemory>
    ensures { OnOk result (out.new.items ≡ out.old.items ++ spec.third_forms) }
{
    put_form(out, b"claim J K R")?;
    put_form(out, b"why J K R, ..")?;
    put_form(out, b"hold J K R, ..")
}

/// Appends the objects of the commands from `order` on.
#[tactic(auto, unfolding(crate::specs::Objects::last_forms))]
fn put_last_forms(out: &mut Vec<u8>) -> Result<(), NoMemory>
    ensures { OnOk result (out.new.items ≡ out.old.items ++ spec.last_forms) }
{
    put_order_form(out, b"")?;
    put_order_form(out, b"J ..")?;
    put_form(out, b"state")?;
    put_form(out, b"help")
}

/// Appends the objects of all commands.
fn put_help(out: &mut Vec<u8>) -> Result<(), NoMemory>
    ensures { OnOk result (out.new.items ≡ out.old.items ++ spec.help_json) }
{
    put_first_forms(out)?;
    put_second_forms(out)?;
    put_third_forms(out)?;
    put_last_forms(out)
}

/// Appends the object of a thing to `out`: it is said of a command after which this text stands.
pub fn put_object_of(
    alloc: Global,
    out: &mut Vec<u8>,
    names: &Names,
    text: &[u8],
    said: &Said,
) -> Result<(), NoMemory>
    ensures { OnOk result (out.new.items ≡ out.old.items
        ++ spec.said_json (names_view names.now) (about_of (names_view names.now) (words_of text.now) said.now) said.now) }
{
    match said {
        Said::Granted(request) => put_request(out, b"granted", names, request),
        Said::Held(request) => put_request(out, b"held", names, request),
        Said::Wish(request) => put_request(out, b"wish", names, request),
        Said::OverClaim(r) => put_one(
            out,
            b"over claim",
            b"resource",
            name_at(&names.resources, *r),
        ),
        Said::WaitCash(r, cash) => put_cash(out, names, *r, *cash),
        Said::WaitRest(jobs) => put_set(alloc, out, b"wait rest", names, jobs),
        Said::Claimed(jobs) => put_set(alloc, out, b"claimed", names, jobs),
        Said::Order(slots) => put_order(alloc, out, names, slots.as_slice()),
        Said::Lacks(p, r) => put_lack(out, names, *p, *r),
        Said::Twice(p) => put_one(out, b"twice", b"job", name_at(&names.processes, *p)),
        Said::Missing(p) => put_one(out, b"missing", b"job", name_at(&names.processes, *p)),
        Said::Resource(stock) => put_stock(out, names, stock),
        Said::Job(share) => put_share(out, names, share),
        Said::Allowed => put_lone(out, b"allowed"),
        Said::Queued => put_lone(out, b"queued"),
        Said::Finishes => put_lone(out, b"finishes"),
        Said::Refused(refusal) => put_refusal(alloc, out, names, text, *refusal),
        Said::Help => put_help(out),
        Said::Ready => put_lone(out, b"ready"),
        Said::NoMemory => put_lone(out, b"memory"),
    }
}
